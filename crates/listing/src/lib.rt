// List: the held pairs from a first to a second, by a merge of the levels of a store whose levels ascend.
#![tactic(auto)]

ghost use Rattle.std.specs.Prelude.{◌+◌, ◌≤◌, ◌≡◌, true, length, set};
ghost use Rattle.rules.specs.Sound.{tree_of};
ghost use Rattle.rules.specs.Listing.{list as listing};
ghost use Rattle.entries.specs.Run.{Inside, entry as indexed};
ghost use Rattle.entries.specs.Levels.{AllInside, PagesWithin, tree_in};
ghost use Rattle.entries.specs.Ascending.{levels_ascend};
ghost use Rattle.entries.specs.Skip.{skip_all};
ghost use Rattle.entries.specs.Spot.{upcoming, Standing, upcomings, AllStanding};
ghost use Rattle.listing.specs.Merge.{lesser, lower, least_of, past, past_all};
ghost use Rattle.listing.specs.Spots.{told, found};

use entries::{Entry, Run, Runs, Spots};
use geometry::Store;
use slot::Pair;

// The number of pairs written, and 1 exactly if there is no room for two more words after them.
#[derive(Clone, Copy)]
pub struct Listed {
    pub pairs: u32,
    pub mark: u32,
}

// Writes the held pairs from first to second into the list, ascending, two words each, until it has no room for two more.
pub fn list_pairs(store: &Store, first: Pair, second: Pair, list: &mut [u32]) -> Listed
    requires pages_within { PagesWithin store.now.geometry store.now.words.now }
    requires store_value { levels_ascend (tree_of store.now.geometry store.now.words.now) ≡ true }
    ensures { told result list.new ≡ listing first second (tree_of store.now.geometry store.now.words.now) list.old }
{
    list_runs(store.words, entries::runs_of(store), first, second, list)
}

// Writes the held pairs from first to second of four runs whose levels ascend into the list.
fn list_runs(words: &[u32], runs: Runs, first: Pair, second: Pair, list: &mut [u32]) -> Listed
    requires all_inside { AllInside runs (length words.now) }
    requires runs_value { levels_ascend (tree_in words.now runs) ≡ true }
    ensures { told result list.new ≡ listing first second (tree_in words.now runs) list.old }
{
    let mut spots = spots_at(words, runs, first);
    let room = list.len() / 2;
    let mut pairs: u32 = 0;
    while (pairs as usize) < room {
        let Some(entry) = least_of(words, runs, spots) else {
            return Listed { pairs, mark: 0 };
        };
        if slot::comes_before(second, entry.pair) {
            return Listed { pairs, mark: 0 };
        }
        spots = spots_past(words, runs, spots, entry.pair);
        if entry.normal {
            write_pair(list, 2 * pairs as usize, entry.pair);
            pairs += 1;
        }
    }
    Listed { pairs, mark: 1 }
}

// Puts a pair's two words at a place.
fn write_pair(list: &mut [u32], place: usize, pair: Pair)
    requires { place + 2 ≤ length list.old }
    ensures { list.new ≡ set (set list.old place pair.badge) (place + 1) pair.floor.0 }
{
    list[place] = pair.badge;
    list[place + 1] = pair.floor.0;
}

// The pair that comes next, as an entry that is normal exactly if it is held, from the bottom up: a level above that has the same pair decides.
#[tactic(auto, unfolding(entries::specs::Spot::upcomings, crate::specs::Merge::least_of))]
fn least_of(words: &[u32], runs: Runs, spots: Spots) -> Option<Entry>
    requires all_inside { AllInside runs (length words.now) }
    requires all_standing { AllStanding words.now runs spots }
    ensures { found result ≡ least_of (upcomings words.now runs spots) }
{
    runs.zip_up(
        spots,
        None,
        |run, spot, below| lower_of(words, run, spot, below),
    )
}

// The lesser of the entry at a spot and the least of the levels below it.
fn lower_of(words: &[u32], run: Run, spot: u64, below: Option<Entry>) -> Option<Entry>
    requires inside { Inside run (length words.now) }
    requires standing { Standing words.now run spot }
    ensures { found result ≡ lower (upcoming words.now run spot) (found below) }
{
    if entries::is_ended(run, spot) {
        return below;
    }
    let entry = entries::entry_at(words, run, spot);
    match below {
        Some(other) => Some(lesser(entry, other)),
        None => Some(entry),
    }
}

// Of two entries the one whose pair comes first; at one pair the upper one's kind counts.
fn lesser(above: Entry, below: Entry) -> Entry
    ensures { indexed result ≡ lesser (indexed above) (indexed below) }
{
    if slot::comes_before(above.pair, below.pair) {
        return above;
    }
    if slot::same_pair(above.pair, below.pair) {
        return Entry {
            pair: below.pair,
            normal: above.normal,
        };
    }
    below
}

// The spots of the first entries of four runs that are not before a pair.
fn spots_at(words: &[u32], runs: Runs, pair: Pair) -> Spots
    requires { AllInside runs (length words.now) }
    ensures told { upcomings words.now runs result ≡ skip_all pair (tree_in words.now runs) }
    ensures standing { AllStanding words.now runs result }
{
    entries::spots_from(words, runs, runs.map(|_| 0), pair)
}

// Four spots, each past its entry of a pair.
#[tactic(auto, unfolding(entries::specs::Spot::upcomings, crate::specs::Merge::past_all))]
fn spots_past(words: &[u32], runs: Runs, spots: Spots, pair: Pair) -> Spots
    requires all_inside { AllInside runs (length words.now) }
    requires all_standing { AllStanding words.now runs spots }
    ensures told { upcomings words.now runs result ≡ past_all pair (upcomings words.now runs spots) }
    ensures standing { AllStanding words.now runs result }
{
    runs.zip_map(spots, |run, spot| spot_past(words, run, spot, pair))
}

// A spot past its entry of a pair, or as it is.
fn spot_past(words: &[u32], run: Run, spot: u64, pair: Pair) -> u64
    requires inside { Inside run (length words.now) }
    requires standing_2 { Standing words.now run spot }
    ensures told { upcoming words.now run result ≡ past pair (upcoming words.now run spot) }
    ensures standing { Standing words.now run result }
{
    if entries::is_ended(run, spot) {
        return spot;
    }
    let entry = entries::entry_at(words, run, spot);
    if slot::same_pair(pair, entry.pair) {
        return entries::skip_to(words, run, spot + 1, slot::least_pair());
    }
    spot
}
