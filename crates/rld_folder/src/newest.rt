ghost use Rattle.std.specs.Prelude.{◌≡◌, List, [], ◌∷◌, ◌++◌, ◌↔◌, IsTrue, None};
ghost use Rattle.rld_folder.specs.Newest.{IsBelow, IsNewest, Precedes, precedes};
ghost use Rattle.rld_folder.specs.declared.name.FileName.{FileName as OneName};

use crate::name::{FileName, Generation};

impl Generation {
    /// Whether this one is older: it is of an earlier era, or has a lower number in the same era; those of
    /// eras are older than all that have a number alone, and of these the lower number is.
    pub fn precedes(self, other: Generation) -> bool
        ensures before { IsTrue result ↔ Precedes self other }
        ensures test { result ≡ precedes self other }
    {
        match (self, other) {
            (
                Generation::Former { era, number },
                Generation::Former {
                    era: other_era,
                    number: other_number,
                },
            ) => era < other_era || (era == other_era && number < other_number),
            (Generation::Former { .. }, Generation::Numbered(_)) => true,
            (Generation::Numbered(_), Generation::Former { .. }) => false,
            (Generation::Numbered(number), Generation::Numbered(other)) => number < other,
        }
    }

    /// Whether this one is before a limit, if there is one.
    fn is_below(self, limit: Option<Generation>) -> bool
        ensures { IsTrue result ↔ IsBelow limit self }
    {
        match limit {
            Some(limit) => self.precedes(limit),
            None => true,
        }
    }
}

/// The newest generation once another file is looked at.
fn newer(limit: Option<Generation>, best: Option<Generation>, file: FileName) -> Option<Generation>
    ensures { (files : List OneName) → IsNewest limit files best →
        IsNewest limit (files ++ file ∷ []) result }
{
    let FileName::Log(generation) = file else {
        return best;
    };
    if !generation.is_below(limit) {
        return best;
    }
    match best {
        Some(newest) if !newest.precedes(generation) => best,
        _ => Some(generation),
    }
}

/// The newest generation among files, or with a limit the newest before it.
pub fn newest_generation(files: &[FileName], limit: Option<Generation>) -> Option<Generation>
    ensures { IsNewest limit files.now result }
{
    let mut best = None;
    for file in files {
        best = newer(limit, best, *file);
    }
    best
}
