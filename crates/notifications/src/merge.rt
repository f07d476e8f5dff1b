// What an analysis proposed is put beside what earlier ones did, a mark and two words for each place: the newest stays.
ghost use Rattle.std.specs.Prelude.{◌≡◌, true, ◌<◌};
ghost use Rattle.notifications.specs.Notifications.{merged, merged_at};
ghost use Rattle.plan.specs.Words.{words_of};
ghost use Rattle.sweep.specs.Sweep.{proposed_at};

use base::slices::word;
use reasons::put;

// The mark and the words of a place that is proposed.
fn merge_at(proposals: &[u64], words: &mut [u64], p: usize)
    requires { (p < 4352) × (proposed_at proposals.now p ≡ true) }
    ensures { words.new ≡ merged_at proposals.now p words.old }
{
    let first = word(proposals, 68 + 2 * p);
    let second = word(proposals, 69 + 2 * p);
    put(words, p as u32, first, second);
}

pub fn merge(plan: &[u8], proposals: &[u64], words: &mut [u64])
    ensures { words.new ≡ merged (words_of plan.now) proposals.now words.old }
{
    let n = 2 * (plan::num_variables(plan) as usize);
    let mut p = sweep::next_proposed(proposals, 0, n);
    // From one place that is proposed to the next one.
    while p < n {
        merge_at(proposals, words, p);
        p = sweep::next_proposed(proposals, p + 1, n);
    }
}
