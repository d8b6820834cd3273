//! What a client asks, by the beginning of its request's body.
use crate::news::{Asked, Order};
use sd_base::{Memory, Text};
use std::alloc::Global;

/// A text with its length in two octets before it, and what is behind it.
fn text_in(bytes: &[u8]) -> Option<(&[u8], &[u8])> {
    let [high, low, rest @ ..] = bytes else {
        return None;
    };
    let size = usize::from(u16::from_be_bytes([*high, *low]));
    if rest.len() < size {
        return None;
    }
    Some(rest.split_at(size))
}

fn name_in(alloc: Global, bytes: &[u8]) -> Result<Option<Text>, Memory> {
    match text_in(bytes) {
        Some((name, _)) => Ok(Some(Text::from_bytes(alloc, name)?)),
        None => Ok(None),
    }
}

fn number_in(bytes: &[u8]) -> Option<u32> {
    match bytes {
        [a, b, c, d] => Some(u32::from_be_bytes([*a, *b, *c, *d])),
        _ => None,
    }
}

fn check_in(alloc: Global, bytes: &[u8]) -> Result<Option<Asked>, Memory> {
    let Some((user, rest)) = text_in(bytes) else {
        return Ok(None);
    };
    let Some((service, _)) = text_in(rest) else {
        return Ok(None);
    };
    let user = Text::from_bytes(alloc, user)?;
    let service = Text::from_bytes(alloc, service)?;
    Ok(Some(Asked::Access(user, service)))
}

fn invalidation_in(alloc: Global, fields: &[u8]) -> Result<Option<Order>, Memory> {
    let [kind, rest @ ..] = fields else {
        return Ok(None);
    };
    match *kind {
        0 => Ok(Some(Order::All)),
        1 => Ok(name_in(alloc, rest)?.map(Order::User)),
        2 => Ok(Some(Order::Users)),
        3 => Ok(name_in(alloc, rest)?.map(Order::Group)),
        4 => Ok(Some(Order::Groups)),
        _ => Ok(None),
    }
}

fn order_in(alloc: Global, command: u8, fields: &[u8]) -> Result<Option<Order>, Memory> {
    match command {
        32 => invalidation_in(alloc, fields),
        33 => Ok(Some(Order::Offline)),
        34 => Ok(Some(Order::Online)),
        35 => Ok(Some(Order::Stop)),
        _ => Ok(None),
    }
}

/// What a request asks, by the beginning of its body: of a login no more than the user is looked at.
pub fn asked_of(alloc: Global, body: &[u8]) -> Result<Option<Asked>, Memory> {
    let [command, fields @ ..] = body else {
        return Ok(None);
    };
    match *command {
        1 => Ok(name_in(alloc, fields)?.map(Asked::User)),
        2 => Ok(number_in(fields).map(Asked::Uid)),
        3 => Ok(name_in(alloc, fields)?.map(Asked::Group)),
        4 => Ok(number_in(fields).map(Asked::Gid)),
        5 => Ok(name_in(alloc, fields)?.map(Asked::GroupsOf)),
        16 => Ok(name_in(alloc, fields)?.map(Asked::Login)),
        17 => check_in(alloc, fields),
        other => Ok(order_in(alloc, other, fields)?.map(Asked::Order)),
    }
}
