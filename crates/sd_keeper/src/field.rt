//! The fields of a row as bytes: numbers, texts, lists and what may be missing.
ghost use Rattle.std.specs.Prelude.{◌≡◌, ℕ, List, ◌++◌, OnOk};
ghost use Rattle.std.specs.declared.option.Option.{Option};
ghost use Rattle.std.specs.List.{flat_map};
ghost use Rattle.sd_keeper.specs.Spelling as spelling;
ghost use Rattle.sd_keeper.specs.Reading as reading;
ghost use Rattle.sd_keeper.specs.Reading.{Gives};
ghost use Rattle.sd_keeper.specs.declared.field.FieldFault.TheVariants as faults;

use sd_base::{Copied, Items, Memory, Text};
use std::alloc::{AllocError, AllocFailed, Global};

/// Why bytes are not read.
#[derive(Clone, Copy, PartialEq, Eq)]
pub enum FieldFault {
    /// They have no such form.
    Bad,
    /// Want of memory.
    Memory,
}

impl From<Memory> for FieldFault {
    ghost from_gives = { λ _ fault. fault ≡ faults.Memory };

    fn from(_memory: Memory) -> FieldFault {
        FieldFault::Memory
    }
}

/// What a row holds.
pub trait Field: Drop {
    /// Its one spelling.
    ghost spelled: { Self → List ℕ };
    /// What bytes begin with, and what is behind it.
    ghost at: { List ℕ → Option (Self × List ℕ) };

    /// Puts its bytes at the end.
    fn spell(&self, out: &mut Vec<u8>) -> Result<(), Memory>
        ensures { OnOk result (out.new.items ≡ out.old.items ++ spelled self.now) };

    /// What the bytes begin with, and what is behind it.
    fn read(alloc: Global, bytes: &[u8]) -> Result<(Self, &[u8]), FieldFault>
        ensures { Gives (λ x. (x.0, x.1.now)) result (at bytes.now) };
}

/// Puts bytes at the end.
pub fn push_bytes(out: &mut Vec<u8>, bytes: &[u8]) -> Result<(), Memory>
    ensures { OnOk result (out.new.items ≡ out.old.items ++ bytes.now) }
{
    out.extend_from_slice(bytes)?;
    Ok(())
}

/// A length in four octets. One that has more is answered as want of memory: no kept row holds so much, since all rows
/// together have at most 512 MiB of text.
#[tactic(auto, unfolding(crate::specs::Spelling::number))]
fn push_length(out: &mut Vec<u8>, length: usize) -> Result<(), Memory>
    ensures { OnOk result (out.new.items ≡ out.old.items ++ spelling.number length) }
{
    let Ok(length) = u32::try_from(length) else {
        return Err(Memory);
    };
    push_bytes(out, &length.to_be_bytes())
}

impl Field for u32 {
    ghost spelled = { spelling.number };

    ghost at = { reading.number_at };

    #[tactic(auto, unfolding(crate::specs::Spelling::number))]
    fn spell(&self, out: &mut Vec<u8>) -> Result<(), Memory> {
        push_bytes(out, &self.to_be_bytes())
    }

    #[tactic(auto, unfolding(crate::specs::Reading::number_at))]
    fn read(_alloc: Global, bytes: &[u8]) -> Result<(u32, &[u8]), FieldFault> {
        if bytes.len() < 4 {
            return Err(FieldFault::Bad);
        }
        let (front, rest) = bytes.split_at(4);
        let number = u32::from_be_bytes([front[0], front[1], front[2], front[3]]);
        Ok((number, rest))
    }
}

impl Field for u64 {
    ghost spelled = { spelling.long };

    ghost at = { reading.long_at };

    #[tactic(auto, unfolding(crate::specs::Spelling::long))]
    fn spell(&self, out: &mut Vec<u8>) -> Result<(), Memory> {
        push_bytes(out, &self.to_be_bytes())
    }

    #[tactic(auto, unfolding(crate::specs::Reading::long_at))]
    fn read(_alloc: Global, bytes: &[u8]) -> Result<(u64, &[u8]), FieldFault> {
        if bytes.len() < 8 {
            return Err(FieldFault::Bad);
        }
        let (front, rest) = bytes.split_at(8);
        let number = u64::from_be_bytes([
            front[0], front[1], front[2], front[3], front[4], front[5], front[6], front[7],
        ]);
        Ok((number, rest))
    }
}

impl Field for bool {
    ghost spelled = { spelling.flag };

    ghost at = { reading.flag_at };

    fn spell(&self, out: &mut Vec<u8>) -> Result<(), Memory> {
        push_bytes(out, &[u8::from(*self)])
    }

    #[tactic(auto, unfolding(crate::specs::Reading::flag_at))]
    fn read(_alloc: Global, bytes: &[u8]) -> Result<(bool, &[u8]), FieldFault> {
        match bytes {
            [0, rest @ ..] => Ok((false, rest)),
            [1, rest @ ..] => Ok((true, rest)),
            _ => Err(FieldFault::Bad),
        }
    }
}

impl Field for Option<u32> {
    ghost spelled = { spelling.optional };

    ghost at = { reading.optional_at };

    fn spell(&self, out: &mut Vec<u8>) -> Result<(), Memory> {
        match self {
            None => push_bytes(out, &[0]),
            Some(number) => {
                push_bytes(out, &[1])?;
                number.spell(out)
            }
        }
    }

    #[tactic(auto, unfolding(crate::specs::Reading::optional_at))]
    fn read(alloc: Global, bytes: &[u8]) -> Result<(Option<u32>, &[u8]), FieldFault> {
        match bytes {
            [0, rest @ ..] => Ok((None, rest)),
            [1, rest @ ..] => {
                let (number, rest) = u32::read(alloc, rest)?;
                Ok((Some(number), rest))
            }
            _ => Err(FieldFault::Bad),
        }
    }
}

impl Field for Text {
    ghost spelled = { spelling.text };

    ghost at = { reading.text_at };

    #[tactic(auto, unfolding(crate::specs::Spelling::text))]
    fn spell(&self, out: &mut Vec<u8>) -> Result<(), Memory> {
        push_length(out, self.bytes().len())?;
        push_bytes(out, self.bytes())
    }

    #[tactic(auto, unfolding(crate::specs::Reading::text_at))]
    fn read(alloc: Global, bytes: &[u8]) -> Result<(Text, &[u8]), FieldFault> {
        let (length, rest) = u32::read(alloc, bytes)?;
        let length = length as usize;
        if rest.len() < length {
            return Err(FieldFault::Bad);
        }
        let (text, rest) = rest.split_at(length);
        Ok((Text::from_bytes(alloc, text)?, rest))
    }
}

impl<T: Field> Field for Items<T> {
    ghost spelled = { spelling.list T.spelled };

    ghost at = { reading.list_at T.at };

    #[tactic(auto, unfolding(crate::specs::Spelling::list))]
    fn spell(&self, out: &mut Vec<u8>) -> Result<(), Memory> {
        push_length(out, self.len())?;
        push_items(out, self.items())
    }

    #[tactic(auto, unfolding(crate::specs::Reading::list_at))]
    fn read(alloc: Global, bytes: &[u8]) -> Result<(Items<T>, &[u8]), FieldFault> {
        let (count, rest) = u32::read(alloc, bytes)?;
        read_items(alloc, count, rest)
    }
}

/// One field behind another. More than two are pairs in pairs.
impl<A: Field, B: Field> Field for (A, B) {
    ghost spelled = { λ pair. A.spelled pair.0 ++ B.spelled pair.1 };

    ghost at = { reading.pair_at A.at B.at };

    fn spell(&self, out: &mut Vec<u8>) -> Result<(), Memory> {
        self.0.spell(out)?;
        self.1.spell(out)
    }

    fn read(alloc: Global, bytes: &[u8]) -> Result<((A, B), &[u8]), FieldFault> {
        let (first, rest) = A::read(alloc, bytes)?;
        let (second, rest) = B::read(alloc, rest)?;
        Ok(((first, second), rest))
    }
}

/// The items one behind another.
fn push_items<T: Field>(out: &mut Vec<u8>, items: &[T]) -> Result<(), Memory>
    ensures { OnOk result (out.new.items ≡ out.old.items ++ flat_map T.spelled items.now) }
{
    for item in items {
        item.spell(out)?;
    }
    Ok(())
}

/// So many items, and what is behind them.
fn read_items<T: Field>(
    alloc: Global,
    count: u32,
    bytes: &[u8],
) -> Result<(Items<T>, &[u8]), FieldFault>
    ensures { Gives (λ x. (x.0, x.1.now)) result (reading.items_at T.at count bytes.now) }
{
    let mut items = Items::new(alloc);
    let mut rest = bytes;
    for _ in 0..count {
        let (item, behind) = T::read(alloc, rest)?;
        items.push(item)?;
        rest = behind;
    }
    Ok((items, rest))
}
