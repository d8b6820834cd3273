// The configuration of a scenario, and its first line that has no form where it stands.
ghost use Rattle.std.specs.Prelude.{◌≡◌, ℕ, ◌^◌, ◌+◌, ◌<◌, ◌≤◌, length, true, false, IfOk, IfErr, Ok};
ghost use Rattle.std.specs.Option.{option_copied};
ghost use Rattle.sd_conf.specs.Config.{conf_of};
ghost use Rattle.sd_layout.specs.Blocks as blocks;
ghost use Rattle.sd_layout.specs.Faults as faults;
ghost use Rattle.sd_layout.specs.Head as heads;
ghost use Rattle.sd_layout.specs.Seen.{head_seen};
ghost use Rattle.sd_lines.specs.Words as words;

use crate::blocks::{Statement, first_statement};
use crate::head::{Head, Origin, head_of};
use sd_base::Memory;
use sd_conf::{ConfFault, Config, read_conf};
use sd_lines::Line;
use std::alloc::Global;

/// The configuration of a scenario, or the number of the line that is at fault.
#[derive(Drop)]
pub enum ConfigRead {
    Config(Config),
    BadLine(u64),
}

/// What a line can name: servers of the configuration, and tasks that were made above it.
#[derive(Clone, Copy)]
pub struct Scope {
    pub servers: u32,
    pub tasks: u64,
}

fn has_few_servers(config: &Config) -> bool
    ensures { result ≡ faults.has_few_servers config.now }
{
    u64::from(config.settings.primaries) + u64::from(config.settings.backups) <= 64
}

fn refused_line(origin: &Origin, fault: &ConfFault) -> u64
    ensures { result ≡ heads.refused_line origin.now fault.now }
{
    match fault {
        ConfFault::BadLine(line) | ConfFault::NoSection(line) | ConfFault::BadValue(line) => {
            origin.line_in(*line)
        }
        _ => origin.last(),
    }
}

fn config_by(alloc: Global, origin: &Origin) -> Result<ConfigRead, Memory>
    ensures { IfOk result (λ config. faults.read_as config ≡ faults.config_by origin.now (conf_of origin.now.text)) }
{
    match read_conf(alloc, origin.text()) {
        Ok(config) => {
            if has_few_servers(&config) {
                Ok(ConfigRead::Config(config))
            } else {
                Ok(ConfigRead::BadLine(origin.last()))
            }
        }
        Err(ConfFault::Memory) => Err(Memory),
        Err(fault) => Ok(ConfigRead::BadLine(refused_line(origin, &fault))),
    }
}

/// The configuration that a head gives.
pub fn config_of(alloc: Global, head: &Head<'_>) -> Result<ConfigRead, Memory>
    ensures { IfOk result (λ config. faults.read_as config ≡ faults.config_of (head_seen head.now)) }
{
    if head.is_whole {
        config_by(alloc, &head.origin)
    } else {
        Ok(ConfigRead::BadLine(head.origin.last()))
    }
}

fn is_task(scope: Scope, task: u64) -> bool
    ensures { result ≡ faults.is_task scope task }
{
    0 < task && task <= scope.tasks
}

fn is_bad_in(scope: Scope, line: &Line) -> bool
    ensures { result ≡ faults.is_bad_in scope line.now }
{
    match line {
        Line::Bad => true,
        Line::Step(task, _) => !is_task(scope, *task),
        Line::Abandon(task) => !is_task(scope, *task),
        Line::Server(server, _) => scope.servers <= *server,
        _ => false,
    }
}

fn tasks_after(tasks: u64, line: &Line) -> u64
    requires { tasks + 1 < 2 ^ 64 }
    ensures exact { result ≡ faults.tasks_after tasks line.now }
    ensures few { result ≤ tasks + 1 }
{
    match line {
        Line::GetUser(_)
        | Line::GetUid(_)
        | Line::GetGroup(_)
        | Line::GetGid(_)
        | Line::GroupsOf(_)
        | Line::Login(_, _)
        | Line::Access(_, _) => tasks + 1,
        _ => tasks,
    }
}

/// What lines behind a line can name, or the number of that line, where it has no form where it stands.
fn scope_behind(scope: Scope, statement: &Statement) -> Result<Scope, u64>
    requires { scope.tasks + 1 < 2 ^ 64 }
    ensures next { IfOk result (λ next. (faults.is_bad_in scope statement.now.line ≡ false) × (next ≡ faults.scope_after scope statement.now.line)) }
    ensures bad { IfErr result (λ number. (faults.is_bad_in scope statement.now.line ≡ true) × (number ≡ statement.now.number)) }
    ensures few { IfOk result (λ next. next.tasks ≤ scope.tasks + 1) }
{
    if is_bad_in(scope, &statement.line) {
        return Err(statement.number);
    }
    Ok(Scope {
        servers: scope.servers,
        tasks: tasks_after(scope.tasks, &statement.line),
    })
}

/// The number of the first line that has no form where it stands; the first of these lines has the number `first`.
fn first_bad_from(
    alloc: Global,
    first: u64,
    servers: u32,
    body: Option<&[u8]>,
) -> Result<Option<u64>, Memory>
    requires { first + blocks.bytes_left (option_copied body) < 2 ^ 33 }
    ensures { IfOk result (λ bad. bad ≡ faults.first_bad_in (record { servers = servers; tasks = 0 }) (blocks.statements_of first (words.pieces_in 10 (option_copied body.entry)))) }
{
    let mut number = first;
    let mut scope = Scope { servers, tasks: 0 };
    let mut left = body;
    while let Some(bytes) = left {
        let next = first_statement(alloc, number, bytes)?;
        match scope_behind(scope, &next.statement) {
            Ok(behind) => scope = behind,
            Err(bad) => return Ok(Some(bad)),
        }
        number = next.number;
        left = next.rest;
    }
    Ok(None)
}

/// The number of the first line behind a head that has no form where it stands.
pub fn first_bad_behind(
    alloc: Global,
    head: &Head<'_>,
    config: &Config,
) -> Result<Option<u64>, Memory>
    requires few { faults.has_few_servers config.now ≡ true }
    requires room { head.now.number + blocks.bytes_left (option_copied head.now.body) < 2 ^ 33 }
    ensures { IfOk result (λ bad. bad ≡ faults.first_bad_by (head_seen head.now) (Ok config.now)) }
{
    let servers = config.settings.primaries + config.settings.backups;
    first_bad_from(alloc, head.number, servers, head.body)
}

#[tactic(auto, unfolding(crate::specs::Faults::first_bad))]
/// The number of the first line of a text that has no form, counted from 1. A line of the head whose configuration is refused
/// counts as one. The text has less than 4 GiB.
pub fn first_bad(alloc: Global, text: &[u8]) -> Result<Option<u64>, Memory>
    requires { length text.now < 2 ^ 32 }
    ensures { IfOk result (λ bad. bad ≡ faults.first_bad text.now) }
{
    let head = head_of(alloc, text)?;
    match config_of(alloc, &head)? {
        ConfigRead::BadLine(number) => Ok(Some(number)),
        ConfigRead::Config(config) => first_bad_behind(alloc, &head, &config),
    }
}
