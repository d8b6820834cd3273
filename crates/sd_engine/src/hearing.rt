//! The request of a frame.
ghost use Rattle.std.specs.Prelude.{◌≡◌, true};
ghost use Rattle.sd_engine.specs.Engines as engines;

use crate::client::Client;
use sd_creds::Salts;
use sd_rules::{Event, Key, Settings};
use sd_wire::Request;
use std::alloc::Global;

/// Whether it is the operator's word to end the daemon.
pub fn is_stop(request: &Request) -> bool
    ensures { result ≡ engines.is_stop request.now }
{
    matches!(request, Request::Stop)
}

/// The client's request that a frame holds, from its first need on.
pub fn client_of(alloc: Global, salts: Salts, settings: &Settings, request: Request) -> Client
    ensures { result ≡ engines.client_of salts settings.now request }
{
    match request {
        Request::User(name) => Client::look_up(salts, Key::User(name)),
        Request::Uid(uid) => Client::look_up(salts, Key::Uid(uid)),
        Request::Group(name) => Client::look_up(salts, Key::Group(name)),
        Request::Gid(gid) => Client::look_up(salts, Key::Gid(gid)),
        Request::GroupsOf(name) => Client::look_up(salts, Key::GroupsOf(name)),
        Request::Login(user, password) => {
            Client::log_in(alloc, salts, user, password, settings.cache_credentials)
        }
        Request::Access(user, service) => Client::check(salts, user, service, settings.access),
        Request::Void(what) => Client::order(salts, Event::Void(what)),
        Request::Offline => Client::order(salts, Event::Offline),
        Request::Online => Client::order(salts, Event::Online),
        Request::Stop => Client::order(salts, Event::Stop),
    }
}
