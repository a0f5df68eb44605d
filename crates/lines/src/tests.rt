// The line of a discarded block: that of docs/COMMAND.md ("Less than all"), and of a number that is no key of 16 bits.
use crate::listed::{Discard, put_discard, put_discarded};
use numbers::Fault;
use std::test::Fail;

const ROOM: usize = 256;

// The line of the block below, up to its key.
const LINE: &[u8] =
    b"dnr: NAME: block 3, octet 148: discarded, 28: a service parameter is not as its key asks: \
      mandatory (0), alpn (1), no-default-alpn (2, only beside alpn) or port (3)";

// A block that is discarded for the value of the parameter with this key.
fn valued(key: usize) -> Discard {
    Discard {
        block: 3,
        octet: 148,
        fault: Fault::Value,
        reason: None,
        key: Some(key),
    }
}

// The line is that of the block, with this ending.
fn ends(line: &[u8], ending: &[u8]) -> Result<(), &'static str> {
    if line.len() == LINE.len() + ending.len() && line.starts_with(LINE) && line.ends_with(ending) {
        return Ok(());
    }
    Err("another line")
}

#[test]
fn tells_any_key() -> Result<(), Fail> {
    let mut out = [0u8; ROOM];
    let n = put_discarded(&mut out, b"NAME", valued(3));
    ends(&out[..n], b"; parameter port\n")?;
    let n = put_discarded(&mut out, b"NAME", valued(65_536));
    ends(&out[..n], b"; parameter key65536\n")?;
    Ok(())
}

#[test]
fn tells_keys_of_16_bits() -> Result<(), Fail> {
    let mut out = [0u8; ROOM];
    let n = put_discard(&mut out, b"NAME", valued(3));
    ends(&out[..n], b"; parameter port\n")?;
    let n = put_discard(&mut out, b"NAME", valued(65_536));
    ends(&out[..n], b"\n")?;
    Ok(())
}
