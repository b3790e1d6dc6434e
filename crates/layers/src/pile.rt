// The pile that a program puts on its host.
ghost use Rattle.std.specs.Prelude.{◌≡◌, [], Some, MatchResult};
ghost use Rattle.tree.specs.Meaning.{counts_of};
ghost use Rattle.layers.specs.Layers.{counted, entries_of, RemembersRightly};

use crate::cache::Cache;
use crate::tally::Tally;
use std::alloc::{AllocFailed, Global};
use tree::traits::LayoutPartialTree;

// A tally over a cache over the host, in order if the host is. For want of memory the host comes back.
pub fn tally_over_cache<H: LayoutPartialTree>(
    heap: Global,
    host: H,
) -> Result<Tally<Cache<H>>, AllocFailed<H>>
    ensures made { MatchResult result (λ t. (t.below.below ≡ host) × (entries_of t.below ≡ []) × (counted t ≡ Some (counts_of 0 0))) (λ e. e.value ≡ host) }
    ensures order { H.ordered host → MatchResult result (λ t. H.ordered t.below.below × RemembersRightly H.meaning t.below) (λ e. H.ordered e.value) }
{
    let cache = Cache::new(heap, host)?;
    Ok(Tally::new(cache))
}
