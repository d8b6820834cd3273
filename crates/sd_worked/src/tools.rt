// The tools, and how one is run.
use sd_base::{Memory, MemorySink, MemorySource};
use sd_idmap::idmap;
use sd_netgroup::netgroup_tool;
use sd_scenario::scenario;
use sd_sudo::sudo_tool;
use sd_tools::Status;
use std::alloc::Global;

/// A tool of the program.
#[derive(Clone, Copy)]
pub enum Tool {
    Scenario,
    Idmap,
    /// `netgroup` and `innetgr`.
    Netgroup,
    Sudo,
}

fn words_of(alloc: Global, line: &[u8]) -> Result<Vec<String>, Memory> {
    let mut words = Vec::new(alloc);
    for word in line.split(|byte| *byte == b' ') {
        let Ok(word) = std::str::from_utf8(word) else {
            return Err(Memory);
        };
        words.push(String::from_str(alloc, word)?)?;
    }
    Ok(words)
}

impl Tool {
    /// Runs it by the words of a line, and gives its status: it reads one source, or a configuration and then entries.
    pub fn run(
        self,
        alloc: Global,
        line: &[u8],
        first: &mut MemorySource,
        then: &mut MemorySource,
        sink: &mut MemorySink,
    ) -> Result<Status, Memory> {
        let words = words_of(alloc, line)?;
        let words = words.as_slice();
        Ok(match self {
            Tool::Scenario => scenario(alloc, words, first, sink),
            Tool::Idmap => idmap(alloc, words, first, sink),
            Tool::Netgroup => netgroup_tool(alloc, words, first, then, sink),
            Tool::Sudo => sudo_tool(alloc, words, first, then, sink),
        })
    }
}
