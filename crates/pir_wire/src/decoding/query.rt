ghost use Rattle.std.specs.Prelude.{◌≡◌, ◌≤◌};
ghost use Rattle.spiral_sets.specs.Sets.{IsSet};
ghost use Rattle.spiral_sets.specs.Counts.{query_ciphertexts, ciphertext_count};
ghost use Rattle.spiral_model.specs.Bodies.{query_rows};

use super::FramedMessage;
use super::pieces::pieces;
use frame_headers::FrameKind;
use no_memory::NoMemory;
use regev_code::QueryBody;
use spiral_sets::ParamSet;
use std::alloc::Global;

/// How many rows a query's ciphertexts have below row 0: those of the set, or one where the query is one ciphertext.
pub(crate) fn rows_below(set: &ParamSet) -> usize
    requires { IsSet set.now }
    ensures value { result ≡ query_rows set.now }
    ensures some { 1 ≤ result }
    ensures most { result ≤ 4 }
{
    if set.direct { set.rows() as usize } else { 1 }
}

/// How many ciphertexts a query has.
fn ciphers_count(set: &ParamSet) -> usize
    requires { IsSet set.now }
    ensures { result ≡ ciphertext_count (query_ciphertexts set.now) }
{
    if !set.direct {
        return 1;
    }
    (set.firsts_count() + set.nu2 * set.gsw_count()) as usize
}

impl FramedMessage for QueryBody {
    ghost use Rattle.std.specs.Prelude.{refl};
    ghost use Rattle.frame_headers.specs.declared.kind.FrameKind.TheVariants.{Query};
    ghost use Rattle.spiral_frames.specs.Frames.{query_message};

    ghost message = { query_message };

    ghost KIND = { Query };

    const KIND: FrameKind = FrameKind::Query;

    ghost kind_is = { λ _. refl };

    ghost one_length = { tt };

    /// The residues of the ciphertexts, 7 bytes each.
    fn from_body(
        alloc: Global,
        set: &ParamSet,
        body: &[u8],
    ) -> Result<Option<QueryBody>, NoMemory> {
        if body.len() as u64 != set.query_len() {
            return Ok(None);
        }
        let m = rows_below(set);
        let count = ciphers_count(set);
        let Some(ciphers) = pieces(alloc, set.degree as usize, m, count, body)? else {
            return Ok(None);
        };
        Ok(Some(QueryBody { set: *set, ciphers }))
    }
}
