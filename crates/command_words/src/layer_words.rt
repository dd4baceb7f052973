// The words that name a layer and its file.
ghost use Rattle.std.specs.Prelude.{◌≡◌, ◌≢◌, EachIndex, IfErr, MatchOption, map, option_map, slice_index};
ghost use Rattle.command_words.specs.Asked.{Answers, layer_of, layers_of};
ghost use Rattle.command_words.specs.Faults.{IsLayersFault};
ghost use Rattle.command_words.specs.LayerWords.{IsSplit, equals_sign};

use crate::naming::advice;
use crate::words_fault::WordsFault;
use std::alloc::Global;

/// The layer's name and its file's path: what stands before and after the first `=`. A path may hold an `=`, a name
/// may not.
pub fn name_and_path(word: &str) -> Option<(&str, &str)>
    ensures layer { option_map (λ r. (r.0.now, r.1.now)) result ≡ layer_of word.now }
    ensures split { MatchOption result (EachIndex word.now (λ i. slice_index word.now i ≢ equals_sign))
        (λ r. IsSplit word.now r.0.now r.1.now) }
{
    word.split_once('=')
}

/// The name and the path of each word, or the number of the first word that has no `=`, with what to write in its place if that is asked.
pub(crate) fn names_and_paths<'a>(
    alloc: Global,
    words: &[&'a str],
    explains: bool,
) -> Result<Vec<(&'a str, &'a str)>, WordsFault>
    ensures layers { Answers (layers_of (map (λ w. w.now) words.now)) (λ v. map (λ l. (l.0.now, l.1.now)) v.items) result }
    ensures fault { IfErr result (IsLayersFault explains (map (λ w. w.now) words.now)) }
{
    let mut layers = Vec::new(alloc);
    'words: for (layer, word) in words.iter().enumerate() {
        match name_and_path(word) {
            Some(split) => layers.push(split)?,
            None => {
                let advice = advice(alloc, words, layer, explains)?;
                return Err(WordsFault::NoEquals { layer, advice });
            }
        }
    }
    Ok(layers)
}
