//! Reduction of lines by repeated elimination of the point of least effective area (Visvalingam and Whyatt 1993), in code, with the threshold that
//! stands for an area and the share of points that may be asked for in its place. It stands on `elimination_meaning`, which says what stays of a
//! line, and on `decimal_text`, whose number texts are areas. The layer above uses the law of the trait `Reducer`: its answer is that definition's
//! list of indexes. `all_indexes` are those that a reduction begins with. `Rescan` looks through the whole line for each position that it removes;
//! `HeapLinks` keeps the corners in a heap, takes time n log n, promises how many steps it counts, reduces a line in the lists of the last one, and
//! looks through the whole of a very short one as `Rescan` does. `weights` goes by a heap too, without a threshold, and says up to which one each
//! position stays. Over these weights `share_threshold` finds the greatest threshold at which a share of the positions between the ends stays, and
//! `kept_by_weights` says what stays at a threshold: the answer of a `Reducer`, without reducing again. For them `weights_until` need not report
//! all weights of a long line: `most_weighed` says how many positions are removed at most, and `capped_is_enough` that the answers are the same. Of
//! whole rings `ring_under`, which is passed on from `geometry`, says whether their area is under a limit. Of areas the layers above use the clause
//! `value` of `threshold` and of `read_threshold`, the law `threshold_is_twice_the_area`, which ties the definition to the number that a text
//! spells, and of `read_share` that it answers the share of `share_of`.
#![tactic(auto)]

mod caching;
mod call_log;
mod candidate;
mod crossing;
mod entry;
mod halves;
mod heap;
mod heap_links;
mod indexes;
mod laws;
mod links;
mod queue;
mod reducer;
mod rescan;
mod share_texts;
mod shares;
mod steps;
mod taking;
mod threshold_laws;
mod thresholds;
mod weighing;
mod weight;

pub use crossing::cross;
pub use geometry::ring_under;
pub use heap_links::HeapLinks;
pub use indexes::all_indexes;
pub use laws::{capped_is_enough, kept_at_is_reduced, share_is_greatest};
pub use reducer::Reducer;
pub use rescan::Rescan;
pub use share_texts::{Share, read_share};
pub use shares::{kept_by_weights, most_weighed, share_threshold};
pub use steps::{Steps, twice_area};
pub use threshold_laws::threshold_is_twice_the_area;
pub use thresholds::{read_threshold, threshold};
pub use weighing::{weights, weights_until};
pub use weight::Weight;
