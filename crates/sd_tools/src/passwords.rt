// The password that the input gives in its first line.
ghost use Rattle.std.specs.Prelude.{◌≡◌, ◌<◌, ◌≤◌, IfOk, IfSome, Err, length};
ghost use Rattle.sd_base.specs.Causes.{Rose, HasCause};
ghost use Rattle.sd_tools.specs.Queries.{first_line};
ghost use Rattle.sd_tools.specs.Lines.{IsNext, IsLine};

use sd_base::{ReadEnd, Source, SourceFailed, Text};
use sd_wire::requests::LONGEST_PASSWORD;
use std::alloc::Global;

/// The next byte, and none at the end.
fn take_byte<S: Source>(source: &mut S) -> Result<Option<u8>, SourceFailed>
    ensures next { IfOk result (λ byte. IsNext (S.left source.old) (S.left source.new) byte) }
    ensures cause { HasCause (S.faults source.old) (S.faults source.new) result }
{
    let mut buf = [0u8; 1];
    let count = source.take(&mut buf)?;
    if count == 0 {
        Ok(None)
    } else {
        Ok(Some(buf[0]))
    }
}

/// Takes the first line of the input, without its line feed, and no byte behind that; it has at most 1024 bytes.
pub fn read_password<S: Source>(alloc: Global, source: &mut S) -> Result<Text, ReadEnd>
    ensures line { IfOk result (λ password. IsLine (S.left source.old) password) }
    ensures within { IfOk result (λ password. length password ≤ LONGEST_PASSWORD) }
    ensures failed { result ≡ Err ReadEnd.Failed → Rose (S.faults source.old) (S.faults source.new) }
    ensures too_long { result ≡ Err ReadEnd.TooLong → IfSome (S.left source.old) (λ input. LONGEST_PASSWORD < length (first_line input)) }
{
    let mut line = Vec::new(alloc);
    while line.len() <= LONGEST_PASSWORD {
        match take_byte(source) {
            Err(SourceFailed) => return Err(ReadEnd::Failed),
            Ok(None) | Ok(Some(b'\n')) => {
                return Text::from_bytes(alloc, line.as_slice()).map_err(|_| ReadEnd::Memory);
            }
            Ok(Some(byte)) => {
                if line.push(byte).is_err() {
                    return Err(ReadEnd::Memory);
                }
            }
        }
    }
    Err(ReadEnd::TooLong)
}
