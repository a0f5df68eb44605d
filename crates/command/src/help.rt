// The text of `dnr --help`.

pub const TEXT: &[u8] =
    b"usage: dnr read CARRIER [AREA] [-o SHEET] [--json] [--value] [--strict] [--force] [FORM]
       dnr write [SHEET] [-o AREA] [--json] [FORM]
       dnr show [SHEET] [--json] [FORM]
       dnr octets [FILE] [-o OCTETS] [--json] [FORM]
       dnr help
       dnr version

read    take encrypted DNS resolvers from an area into a record sheet
write   make the octets of a record sheet
show    print a record sheet
octets  print the octets that an input is taken for

CARRIER      1 or dhcp4, 2 or dhcp6, 3 or ra, 4 or ike4, 5 or ike6
AREA, SHEET  a file; standard input when none is named or it is -
-o FILE      write the octets to a file; - is standard output
--json       print JSON instead of text, messages too
--value      the input is the value of an option without its header;
             several values: one a line
--strict     exit status 3 when nothing was found or a block was discarded
--force      replace a file that has records by a sheet that has none
FORM         --hex (text), --raw (octets as they are) or --base64; with none,
             text is taken in the form that it has, anything else as it is:
             digits with blanks, colons, commas or dashes, 0x.. , \\x.. , a C array,
             xxd, hexdump -C, od -Ax -tx1, tcpdump -x, Wireshark

exit status  0 done, 1 refused by a number, 2 wrong use, no octets, or a file,
             3 done, and the answer is no
";
