// Checking two map files together: whether they speak of one step of one service and of one peer, and what both tell.

ghost use Rattle.std.specs.Prelude.{◌≡◌};
ghost use Rattle.std.specs.Option.{option_map_or};
ghost use Rattle.tw_tmap.specs.declared.map_verdict.MapVerdict.TheVariants.{No, Yes};
ghost use Rattle.tw_tmap.specs.Binding.{BindsMap};
ghost use Rattle.tw_tmap.specs.Checking.{fit as fit_of, map_verdict};
ghost use Rattle.tw_tmap.specs.MapFiles.{high_codec, low_codec};

use crate::finding::lower_found;
use crate::map_file::{HighFile, LowFile};
use crate::map_verdict::MapVerdict;
use crate::showing::{high_judged, low_judged};
use tw_base::{Hasher, Reason, Thread};

/// Whether both files speak of one step of one service and of one peer.
fn fit(low: &LowFile, high: &HighFile) -> bool
    ensures { result ≡ fit_of low.now high.now }
{
    low.service == high.peer && low.step == high.step && low.peer == high.service
}

/// What is told where this was found: the reason, or the bounds where there is none.
fn told(found: Option<Reason>, low: u64, high: Option<u64>, upto: u64) -> MapVerdict
    ensures { result ≡ option_map_or (λ reason. No reason) found (Yes low high upto) }
{
    match found {
        Some(reason) => MapVerdict::No(reason),
        None => MapVerdict::Yes { low, high, upto },
    }
}

/// What both files tell under the anchors.
fn verdict<H: Hasher>(low: &LowFile, high: &HighFile, anchors: &[Thread]) -> MapVerdict
    requires low { low_codec.Fits low.now }
    requires high { high_codec.Fits high.now }
    ensures { result ≡ map_verdict H.dig anchors.now low.now high.now }
{
    if !fit(low, high) {
        return MapVerdict::Gap;
    }
    let of_low = low_judged::<H>(low, anchors);
    let of_high = high_judged::<H>(high, anchors);
    let found = lower_found(of_low.found, of_high.found);
    told(found, of_low.bound, of_high.bound, high.top)
}

/// What both files tell under the anchors, each of which has a spelling, as those that are read have: `Gap`
/// exactly where they don't speak of one step of one service and of one peer; else `No` with the lowest
/// reason that stands, where the low file is part 0 and the high file part 1; else both bounds. Each text
/// is hashed once, and no memory is taken.
///
/// Where it is Yes, the bounds are those of the histories in every family of sound histories that has the
/// anchors of both tops; or two different texts of the histories and of the files, both of bytes, have one
/// digest.
pub fn check_map<H: Hasher>(low: &LowFile, high: &HighFile, anchors: &[Thread]) -> MapVerdict
    requires low { low_codec.Fits low.now }
    requires high { high_codec.Fits high.now }
    // What is told of two map files is `Gap` exactly where they don't speak of one step of one service and of one peer; else
    // `No` with the lowest reason against their checks; else `Yes` with the bounds that they show.
    ensures verdict { result ≡ map_verdict H.dig anchors.now low.now high.now }
    // Where it is `Yes`, in every list of sound histories that has the anchors held of both tops, `low` is the greatest step of
    // the peer that the service received before its step, and 0 where there is none; `high` is the least step of the peer up to
    // `upto` that received the service's step or a later one, if any did; or two different texts of these histories and of the
    // files, both of bytes, have one digest.
    ensures binds { BindsMap H.dig anchors.now low.now high.now result }
{
    verdict::<H>(low, high, anchors)
}
