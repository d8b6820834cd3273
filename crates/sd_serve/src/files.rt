// Two files of a host: a configuration, and entries in LDIF.
ghost use Rattle.std.specs.Prelude.{◌≡◌, ◌≤◌, IfOk, OnErr};
ghost use Rattle.sd_base.specs.Causes.{Rose};

use sd_base::SourceFailed;
use sd_server::Host;

/// The files at two paths, each at its beginning.
pub fn open_both<H: Host>(
    first: &str,
    second: &str,
    host: &mut H,
) -> Result<(H::File, H::File), SourceFailed>
    ensures first { IfOk result (λ files. (H.File.left files.0 ≡ H.text_at host.old first.now) × (H.File.faults files.0 ≡ 0)) }
    ensures second { IfOk result (λ files. (H.File.left files.1 ≡ H.text_at host.old second.now) × (H.File.faults files.1 ≡ 0)) }
    ensures failed { OnErr result (Rose (H.source_faults host.old) (H.source_faults host.new)) }
    ensures later { H.source_faults host.old ≤ H.source_faults host.new }
{
    let first = host.file(first)?;
    match host.file(second) {
        Ok(second) => Ok((first, second)),
        Err(SourceFailed) => {
            host.done_file(first);
            Err(SourceFailed)
        }
    }
}

/// Hands both files back.
pub fn close_both<H: Host>(first: H::File, second: H::File, host: &mut H)
    ensures first { Rose 0 (H.File.faults first) → Rose (H.source_faults host.old) (H.source_faults host.new) }
    ensures second { Rose 0 (H.File.faults second) → Rose (H.source_faults host.old) (H.source_faults host.new) }
    ensures later { H.source_faults host.old ≤ H.source_faults host.new }
{
    host.done_file(first);
    host.done_file(second);
}
