// Where lines come into the page: the first step that has drifted so far.
ghost use Rattle.std.specs.Prelude.{◌≡◌, ◌≤◌, length};
ghost use Rattle.geometry.specs.Tables.{FirstEntries, ReachTables, Reaches};

// The first entry of a profile, from `from` on, that is at least v; the profile's length where none is.
fn climb(profile: &[usize], v: usize, from: usize) -> usize
    requires { from ≤ length profile.now }
    ensures { Reaches profile.now v from result }
{
    for s in from..profile.len() {
        if v <= profile[s] {
            return s;
        }
    }
    // Stays: a table of numbers has the length where no step has drifted so far, by the definition of ReachTable.
    profile.len()
}

// Fills a table with the first step that has drifted v places, for each v from 0 on: the profile's first entry that is
// at least v, and its length where none is. What has not drifted v places has not drifted more, so each climb goes on
// where the one before ended: the two tables are walked once.
pub fn fill_reach(profile: &[usize], reach: &mut [usize])
    ensures same_length { length reach.new ≡ length reach.old }
    ensures entered { FirstEntries profile.now reach.new }
    ensures tabled { ReachTables profile.now reach.new }
{
    let mut s: usize = 0;
    for (v, place) in reach.iter_mut().enumerate() {
        s = climb(profile, v, s);
        *place = s;
    }
}
