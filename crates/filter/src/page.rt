// A page that stands in one lent buffer, filtered into a page that stands in another.
ghost use Rattle.std.specs.Prelude.{◌≡◌, ◌+◌, ◌*◌, ◌≤◌, length};
ghost use Rattle.geometry.specs.Drift.{Allowed};
ghost use Rattle.tray.specs.Turned.{compact_height};
ghost use Rattle.filter.specs.Engine.{layout_of, Tables, Enters, Ready};
ghost use Rattle.filter.specs.Promises.{Fits, Filtered};

use super::{Recipe, passes};
use placement::Placement;
use tray::Layout;

// The profile and the entry table of a line, as long as the page in normal form has rows.
fn fill_tables(how: Recipe, profile: &mut [usize], reaches: &mut [usize])
    requires { Allowed how.segment.line
        × (length profile.old ≤ 8192)
        × (length reaches.old ≡ length profile.old) }
    ensures { Tables how (length profile.old) profile.new reaches.new }
{
    geometry::profile::fill_profile(how.segment.line, profile);
    geometry::entry::fill_reach(profile, reaches);
}

// The page taken into the scratch, filtered there, and its hidden pixels painted white. It answers the comparisons.
fn filter_in(
    how: Recipe,
    lay: Layout,
    source: &[u8],
    from: Placement,
    scratch: &mut [u8],
    profile: &[usize],
    reaches: &[usize],
) -> usize
    requires enters { Enters how from (length source.now) (length scratch.old) }
    requires lay_value { lay ≡ layout_of how from.width from.height }
    requires tables { Tables how (compact_height lay) profile.now reaches.now }
    ensures { Ready how from source.now scratch.old scratch.new result }
{
    turning::turn::page_in(source, from, lay, scratch);
    let work = passes::filter_held(how, lay, profile, reaches, scratch);
    passes::hide_all(how, lay, scratch, how.white);
    work
}

// Where a page is filtered from, where to, and how it is laid out on the way.
#[derive(Clone, Copy)]
struct Way {
    from: Placement,
    to: Placement,
    lay: Layout,
}

// The same, with room for the line's tables, and the page given out.
fn filter_with(
    how: Recipe,
    way: Way,
    source: &[u8],
    output: &mut [u8],
    scratch: &mut [u8],
    profile: &mut [usize],
    reaches: &mut [usize],
) -> usize
    requires fits { Fits how way.from way.to (length source.now) (length output.old) (length scratch.old) }
    requires lay_value { way.lay ≡ layout_of how way.from.width way.from.height }
    requires profile_len { length profile.old ≡ compact_height way.lay }
    requires reaches_len { length reaches.old ≡ length profile.old }
    ensures { Filtered how way.from way.to
        source.now output.old scratch.old
        output.new scratch.new result }
{
    let Way { from, to, lay } = way;
    fill_tables(how, profile, reaches);
    let work = filter_in(how, lay, source, from, scratch, profile, reaches);
    turning::turn::page_out(scratch, lay, to, output);
    work
}

// The page at one place filtered into the page at the other: every pixel is as the recipe makes it, no other byte of
// the output is written. It answers the comparisons. The first bytes of the scratch, two for each pixel, are used and
// left as they are.
pub fn filter(
    how: Recipe,
    source: &[u8],
    from: Placement,
    output: &mut [u8],
    to: Placement,
    scratch: &mut [u8],
) -> usize
    requires { Fits how from to (length source.now) (length output.old) (length scratch.old) }
    ensures { Filtered how from to
        source.now output.old scratch.old
        output.new scratch.new result }
{
    // Room for the longest side.
    let mut profile = [0usize; 8192];
    let mut reaches = [0usize; 8192];
    let lay = passes::layout_of(how, from.width, from.height);
    let rows = tray::sides::compact_height(lay);
    let way = Way { from, to, lay };
    filter_with(
        how,
        way,
        source,
        output,
        scratch,
        &mut profile[..rows],
        &mut reaches[..rows],
    )
}
