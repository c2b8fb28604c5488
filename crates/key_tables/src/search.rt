ghost use Rattle.std.specs.Prelude.{◌≡◌, length};
ghost use Rattle.key_tables.specs.Index.{AddsSteps};
ghost use Rattle.key_tables.specs.Seen.{IsPlace};

use crate::{RowIndex, RowKey, Steps};
use std::cmp::Ordering;
use std::marker::Brand;
use std::sync::ledger::{Blank, Ledger};

// The place of the row that is found by the key. Half of the places that are left go with each step.
pub(crate) fn search<L: Ledger>(
    index: &RowIndex,
    wanted: &RowKey,
    steps: &mut Steps<L>,
) -> Option<usize>
    ensures place { IsPlace index.now wanted.now result }
    ensures steps { AddsSteps 1 (length index.now) steps.old steps.new }
{
    let mut low = 0;
    let mut high = index.len();
    'search: while low < high {
        let middle = low + (high - low) / 2;
        match index.compare_at(middle, wanted, steps) {
            Ordering::Less => low = middle + 1,
            Ordering::Equal => return Some(middle),
            Ordering::Greater => high = middle,
        }
    }
    None
}

// The same, where nobody counts.
pub(crate) fn find(index: &RowIndex, wanted: &RowKey) -> Option<usize>
    ensures { IsPlace index.now wanted.now result }
{
    find_from::<Brand>(index, wanted, Blank::new(1))
}

fn find_from<L: Ledger>(index: &RowIndex, wanted: &RowKey, blank: Blank) -> Option<usize>
    requires name { blank.name ≡ L.name }
    requires parts { blank.parts ≡ L.parts }
    requires one { blank.parts ≡ 1 }
    ensures { IsPlace index.now wanted.now result }
{
    search(index, wanted, &mut Steps::<L>::new(blank))
}
