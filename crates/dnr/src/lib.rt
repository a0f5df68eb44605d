// The C interface: libdnr. The contracts stand on the exported functions themselves; include/dnr.h declares them for C, and the gate
// holds the header against this file and the structs it returns. A slice crosses as a pointer and a length; a null pointer goes with
// length 0.
#![tactic(auto)]

ghost use Rattle.std.specs.Prelude.{length};
ghost use Rattle.reading.specs.Reading.{read_of};
ghost use Rattle.reading.specs.Result.{Reads};
ghost use Rattle.written.specs.Writing.{write_of};
ghost use Rattle.answers.specs.Answers.{Writes};
ghost use Rattle.words.specs.Words.{words_of};
ghost use Rattle.words.specs.Strings.{PutsString};

use answers::Result;
use reading::Reading;

// Reads an area under a carrier number and writes its record sheet. (Field by field: see docs/DESIGN.md, Speed.)
#[unsafe(no_mangle)]
pub extern "C" fn dnr_read(carrier: usize, area: &[u8], sheet: &mut [u8]) -> Reading
    ensures { Reads (read_of carrier area.now (length sheet.old)) sheet.old result sheet.new }
{
    let done = reading::read(carrier, area, sheet);
    Reading {
        number: done.number,
        length: done.length,
        found: done.found,
        discarded: done.discarded,
        fault: done.fault,
        place: done.place,
    }
}

// Writes the octets of a record sheet: its options, or its attributes.
#[unsafe(no_mangle)]
pub extern "C" fn dnr_write(sheet: &[u8], octets: &mut [u8]) -> Result
    ensures { Writes (write_of sheet.now (length octets.old)) octets.old result octets.new }
{
    writing::write(sheet, octets)
}

// Writes the words of a number as a C string, as far as there is room, and gives back how many octets stand before its closing 0.
#[unsafe(no_mangle)]
pub extern "C" fn dnr_words(number: usize, text: &mut [u8]) -> usize
    ensures { PutsString (words_of number) text.old result text.new }
{
    if text.len() == 0 {
        return 0;
    }
    let written = words::put_words(text, 0, number);
    let end = written.min(text.len() - 1);
    text[end] = 0;
    end
}
