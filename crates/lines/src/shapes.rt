// The lines of a run's shapes. Pattern, permutation, depth and the number's text are carried from shape to shape: nothing is worked out anew
// that a step leaves.
ghost use Rattle.std.specs.Prelude.{◌≡◌, cond, ◌+◌, ◌≤◌, ◌<◌, eqb, length};
ghost use Rattle.catalan.specs.Count.{C, largest_size};
ghost use Rattle.shape.specs.Tree.{permutation};
ghost use Rattle.shape.specs.Form.{pattern_tree};
ghost use Rattle.shape.specs.Number.{local_pattern};
ghost use Rattle.run.specs.declared.Progress.TheVariants.{Handed};
ghost use Rattle.run.specs.Calls.{progress};
ghost use Rattle.run.specs.State.{no_places};
ghost use Rattle.run.specs.Walk.{after, figure_of};
ghost use Rattle.walk.specs.Depths.{depths_of};
ghost use Rattle.text.specs.Text.{shape_lines, written};
ghost use Rattle.lines.specs.Calls.{standing, listed as lines_in, listed_lines as lines_of};

use run::Run;

// The run moved on past the shapes whose lines were put, and how many bytes these lines have.
#[derive(Clone, Copy)]
pub(crate) struct Listed {
    pub bytes: usize,
    pub run: Run,
}

// As many lines as there is room for, from the start of the buffer on.
#[tactic(auto, using(crate::proofs::Carried::carries))]
pub(crate) fn list(run: Run, out: &mut [u8]) -> Listed
    requires { progress run ≡ Handed }
    ensures bytes_value { result.bytes ≡ length (lines_of run (length out.old)) }
    ensures run_value { result.run ≡ after (lines_in run (length out.old)) run }
    ensures out_after { out.new ≡ written out.old 0 (lines_of run (length out.old)) }
{
    let size = run.size;
    let mut places = run.places;
    let mut entries = [0u16; 35];
    natural::permutation_of(size, &places[..2 * size], &mut entries[..size]);
    let mut depths = [0u8; 71];
    walk::depths(size, &places[..2 * size], &mut depths[..2 * size + 1]);
    let walked = put_lines(
        run,
        &mut places[..2 * size],
        &mut entries[..size],
        &mut depths[..2 * size + 1],
        out,
    );
    let places = places_left(walked.next, run.end, places);
    Listed {
        bytes: walked.bytes,
        run: Run {
            next: walked.next,
            figure: walked.figure,
            places,
            ..run
        },
    }
}

// The places of a state: all 0 once the run is done.
#[tactic(auto, using(crate::proofs::Answers::answers))]
fn places_left(next: u64, end: u64, places: [u8; 70]) -> [u8; 70]
    ensures { result ≡ cond (eqb next end) no_places places }
{
    if next == end { [0; 70] } else { places }
}

// How far the lines went: the number of the shape that comes next, the figure so far, and how many bytes were put.
#[derive(Clone, Copy)]
struct Walked {
    next: u64,
    figure: u64,
    bytes: usize,
}

// Line after line, where there is room for any. A shape's two forms, its depths, its number's text and its change are those of the shape
// before, moved on. A `while`: the room ends it, and the bytes of a line are known once it is put.
#[tactic(auto, using(crate::proofs::Walking::walking))]
fn put_lines(
    run: Run,
    places: &mut [u8],
    entries: &mut [u16],
    depths: &mut [u8],
    out: &mut [u8],
) -> Walked
    requires le_size { (1 ≤ run.size) × (run.size ≤ largest_size) × (run.next < run.end) × (run.end ≤ C run.size) }
    requires places_value { (places.old ≡ local_pattern run.size run.next)
        × (entries.old ≡ permutation (pattern_tree places.old))
        × (depths.old ≡ depths_of places.old) }
    ensures next_value { result.next ≡ run.next + lines_in (standing run.size run.next run.end run.figure) (length out.old) }
    ensures figure_value { result.figure ≡ run.figure + figure_of run.size run.next result.next }
    ensures bytes_value { result.bytes ≡ length (shape_lines run.size run.next result.next) }
    ensures out_after { out.new ≡ written out.old 0 (shape_lines run.size run.next result.next) }
    ensures places_after { result.next < run.end → places.new ≡ local_pattern run.size result.next }
{
    // the number's text, and room for the byte that is put behind it, which is no part of it; its width stands beside, as `text::count_up` has it
    let mut digits = [0u8; 21];
    let mut width = text::put_number(run.next, b' ', &mut digits, 0) - 1;
    let mut change = local::change(run.size, places);
    let mut figure = run.figure;
    let mut next = run.next;
    let mut at = 0;
    while out.len() - at >= 256 {
        if figure > u64::MAX - change {
            break;
        }
        let depth = depths[2 * run.size] as u64;
        at = text::put_shape(&digits[..width], places, entries, depth, change, out, at);
        figure += change;
        next += 1;
        if next == run.end {
            break;
        }
        // the run is not over, so there is a next shape
        change = walk::next(run.size, places, entries, depths).unwrap();
        width = text::count_up(&mut digits, width);
    }
    Walked {
        next,
        figure,
        bytes: at,
    }
}
