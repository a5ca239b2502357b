//! The table that a source holds.
ghost use Rattle.std.specs.Prelude.{◌≡◌, ◌+◌, ◌<◌, ◌≤◌, ◌^◌, Err, length, IfErr, IfOk, IfSome, OnOk};
ghost use Rattle.edges.specs.Faults.{CountsFaults};
ghost use Rattle.edges.specs.Told.{IsAtEnd};
ghost use Rattle.ranking.specs.Tables.{IsTableStop};

use crate::stops::RankStop;
use edges::{Failed, Source, take_behind};
use std::alloc::Global;

/// All bytes of the source, which may be `most`.
pub(crate) fn read_table<S: Source>(
    alloc: Global,
    source: &mut S,
    most: usize,
) -> Result<Vec<u8>, RankStop>
    requires { most < 2 ^ 32 }
    ensures whole { IfOk result (λ table. IfSome (S.left source.old) (λ text. text ≡ table.items)) }
    ensures fits { IfOk result (λ table. length table.items ≤ most) }
    ensures ended { OnOk result (IsAtEnd (S.left source.new)) }
    ensures stops { IfErr result (λ stop. IfSome (S.left source.old) (λ text. IsTableStop most text stop)) }
    ensures faults { CountsFaults (result ≡ Err RankStop.ReadFault) (S.faults source.old) (S.faults source.new) }
    ensures loans { S.loans source.new ≡ S.loans source.old }
{
    let mut table = vec![in alloc; 0; most + 1]?;
    let mut len = 0;
    while len <= most {
        match take_behind(table.as_mut_slice(), len, source) {
            Err(Failed) => return Err(RankStop::ReadFault),
            Ok(0) => {
                table.truncate(len);
                return Ok(table);
            }
            Ok(taken) => len += taken,
        }
    }
    Err(RankStop::TableLong)
}
