// What goes wrong in a run.
use sd_base::Memory;

/// The front of a message that ends a search of the id 2; each line asks once, by the id 1. It has a further element of zeros.
const OTHER: &[u8] =
    b"\x30\x82\x0f\xfc\x02\x01\x02\x65\x07\x0a\x01\x00\x04\x00\x04\x00\x04\x82\x0f\xec";

/// How many bytes the whole message has.
const OTHER_LENGTH: usize = 4096;

/// The calls of which one may fail.
#[derive(Clone, Copy, PartialEq, Eq)]
pub enum Call {
    Take,
    Put,
    Dial,
    Send,
    Receive,
}

/// What goes wrong in a run. Calls are counted from 1.
#[derive(Clone, Copy, PartialEq, Eq)]
pub enum Trouble {
    Nothing,
    /// This call of its kind fails.
    Once(Call, u64),
    /// This call of its kind fails, and all behind it.
    From(Call, u64),
    /// Each line ends behind so many bytes.
    Cut(u64),
    /// The byte at this place of each answer is another.
    Byte(u64, u8),
    /// In place of each answer messages of another id come, without end.
    Others,
}

impl Trouble {
    /// Whether the call of this number fails.
    pub fn fails(&self, call: Call, number: u64) -> bool {
        match *self {
            Trouble::Once(kind, first) => kind == call && number == first,
            Trouble::From(kind, first) => kind == call && number >= first,
            Trouble::Nothing | Trouble::Cut(_) | Trouble::Byte(_, _) | Trouble::Others => false,
        }
    }

    /// Whether what is to come over a line comes again and again.
    pub fn is_endless(&self) -> bool {
        matches!(*self, Trouble::Others)
    }

    /// Spoils what is to come over a line.
    pub fn spoil(&self, bytes: &mut Vec<u8>) -> Result<(), Memory> {
        match *self {
            Trouble::Cut(length) => bytes.truncate(length as usize),
            Trouble::Byte(place, byte) => {
                if let Some(at) = bytes.get_mut(place as usize) {
                    *at = byte;
                }
            }
            Trouble::Others => {
                bytes.clear();
                bytes.extend_from_slice(OTHER)?;
                bytes.resize(OTHER_LENGTH, 0)?;
            }
            Trouble::Nothing | Trouble::Once(_, _) | Trouble::From(_, _) => {}
        }
        Ok(())
    }
}
