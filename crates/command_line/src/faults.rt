// What is wrong with a command line: one line on standard error.
use std::fmt;

// An argument goes by the name that its reader gives it.
#[derive(Clone, Copy)]
pub enum Fault<'a> {
    UnknownCommand,
    Missing,
    Surplus,
    NotDecimal(&'a [u8]),
    NotHexadecimal(&'a [u8]),
    // It ends within one of its entries, which have so many characters each.
    Ragged(&'a [u8], usize),
    // It has more entries than there is room for: how many there is room for, and how many characters each has.
    Long(&'a [u8], usize, usize),
    UnreadableTape,
    ManyPlaces,
    HighPlace,
    UnknownRoute,
}

// A byte is two digits, a word eight digits or four raw bytes.
// Kept: the number of characters and no enum, since `arguments::counted` promises what it does for every such number.
fn ragged(each: usize) -> &'static str {
    match each {
        2 => " has an odd number of digits\n",
        4 => " has a number of bytes that is no multiple of four\n",
        _ => " has a number of digits that is no multiple of eight\n",
    }
}

fn unit(each: usize) -> &'static str {
    match each {
        1 => " digits\n",
        2 => " bytes\n",
        _ => " words\n",
    }
}

// What is wrong, behind the name of the argument, and the end of the line: in one text where no number stands in it, so that it is one write.
impl<'a> fmt::Display for Fault<'a> {
    fn fmt<W: fmt::Write>(&self, f: &mut fmt::Formatter<W>) -> fmt::Result {
        match self {
            Fault::UnknownCommand => f.write_str("unknown command, see dokkumel help\n"),
            Fault::Missing => f.write_str("missing argument, see dokkumel help\n"),
            Fault::Surplus => f.write_str("surplus argument, see dokkumel help\n"),
            Fault::NotDecimal(_) => f.write_str(" is no decimal number of at most 4096 digits\n"),
            Fault::NotHexadecimal(_) => f.write_str(
                " has a character that is no hexadecimal digit\n",
            ),
            Fault::Ragged(_, each) => f.write_str(ragged(*each)),
            Fault::Long(_, room, each) => write!(f, " is longer than {room}{}", unit(*each)),
            Fault::UnreadableTape => f.write_str("TAPE cannot be read from standard input\n"),
            Fault::ManyPlaces => f.write_str("more than 256 places\n"),
            Fault::HighPlace => f.write_str("PLACE is above 65535\n"),
            Fault::UnknownRoute => f.write_str(
                "ROUTE is none of encrypt, decrypt, prepare, encrypt-prepared\n",
            ),
        }
    }
}
