// One policy from maker and board: the join writes one image from two. It asks nothing of its caller, and its promise fixes the answer and
// every byte of the output.
#![tactic(auto)]

ghost use Rattle.std.specs.Prelude.{◌+◌, ◌≤◌, ◌≡◌, ◌++◌, length, drop};
ghost use Rattle.policy_image.specs.Layout.{record_count};
ghost use Rattle.policy_image.specs.Inner.Sizes.{image_size, most_records};
ghost use Rattle.policy_lists.specs.Joined.{larger_counts};
ghost use Rattle.join.specs.Join.{joined_image, JoinPromise};
ghost use Rattle.join.specs.Inner.Parts.{Joinable};

use base::refusals::Refusal;
use policy_check::check;
use policy_image::counts::{Counts, MOST_RECORDS};
use policy_image::kinds::Kind;
use policy_image::sizes::image_size;
use policy_runs::tables::{CONSTRAINTS, NODES, ends_of, heads_of};
use policy_runs::{Run, count_kinds, count_nodes, put_run};
use policy_writing::put_header;

// The counts of the result.
fn larger_counts(c: Counts, d: Counts) -> Counts
    requires { c.records + d.records ≤ most_records }
    ensures { result ≡ larger_counts c d }
{
    Counts {
        types: c.types.max(d.types),
        roles: c.roles.max(d.roles),
        users: c.users.max(d.users),
        classes: c.classes.max(d.classes),
        records: c.records + d.records,
    }
}

// Writes the joined image: the header, then for each kind the maker's records and the board's.
fn write(output: &mut [u8], maker: &[u8], makers: Counts, board: &[u8], boards: Counts)
    requires { Joinable maker.now board.now makers boards (length output.old) }
    ensures { output.new ≡ joined_image maker.now board.now ++ drop (image_size (record_count maker.now + record_count board.now)) output.old }
{
    let of_maker = count_kinds(maker, makers.records);
    let of_board = count_kinds(board, boards.records);
    let maker_nodes = count_nodes(maker, makers.records);
    let board_nodes = count_nodes(board, boards.records);
    let ends = ends_of(&of_maker, &of_board);
    let heads = heads_of(&ends);
    put_header(output, larger_counts(makers, boards), &heads);
    // nodes stand behind all records of other kinds, constraints the last of them
    let makers_shift = ends[CONSTRAINTS];
    let boards_shift = ends[CONSTRAINTS] + of_maker[NODES];
    for kind in Kind::ALL {
        let k = kind.number() as usize;
        let makers_run = Run {
            kind,
            before: ends[k - 1],
            last: ends[k],
            shift: makers_shift,
        };
        let between = put_run(output, maker, &maker_nodes, makers_run);
        let boards_run = Run {
            kind,
            before: between,
            last: ends[k],
            shift: boards_shift,
        };
        put_run(output, board, &board_nodes, boards_run);
    }
}

// One image from two: the output's first bytes are the joined image, whose length is the answer, and its later bytes are as they
// were. A refusal writes nothing.
pub fn join(maker: &[u8], board: &[u8], output: &mut [u8]) -> Result<u32, Refusal>
    ensures { JoinPromise maker.now board.now output.old output.new result }
{
    let makers = check(maker)?;
    let boards = check(board)?;
    let records = makers.records + boards.records;
    if MOST_RECORDS < records {
        return Err(Refusal::TooManyRecords);
    }
    let bytes = image_size(records);
    if output.len() < bytes {
        return Err(Refusal::OutputSlice);
    }
    write(output, maker, makers, board, boards);
    Ok(bytes as u32)
}
