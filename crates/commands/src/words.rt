// The command that the words of the command line ask for, as the crate `clap` reads them.
ghost use Rattle.std.specs.Prelude.{◌≡◌, ℕ, IfOk, codes, map, option_map, option_and_then};
ghost use Rattle.std.specs.String.{string_bytes};
ghost use Rattle.clap.specs.Words.{first_of, found_of, rows_of, subcommand_rows_of, rule_of};
ghost use Rattle.commands.specs.Words.{wish_of, wish_by, wish_in, run_in, run_with, ring_in, bench_in, flag_in, number_in, start_of, indirect_of, count_of, layout_of, order_of};
ghost use Rattle.commands.specs.Words.{command_set, read_set, run_set, shape_set, inspect_set, check_set, bench_set, image_rule, flag_rule, option_rule, abi_rule, order_rule, seed_rule, count_rule};
ghost use Rattle.commands.specs.Reading.{IsArgument, IsSet};

use blk_base::{Abi, OutOfMemory};
use clap::error::ErrorKind;
use clap::{Arg, ArgAction, ArgMatches, value_parser};
use schedule_text::Detail;
use std::alloc::{AllocError, Global};

/// What the program is told to do.
#[derive(Clone, Copy, PartialEq, Eq)]
pub enum Command<'a> {
    /// Show a ring of that layout and of `2^order` pages (0 to 4) as text.
    Inspect { abi: Abi, order: u32 },
    /// Run the schedule that the input holds on the image of that name.
    Run { image: &'a str, options: RunOptions },
    /// Hold the report that the input holds against the rules.
    Check,
    /// Run the schedule of that seed and that many lines (0 to 100000) on zeros in memory, and count
    /// what comes.
    Bench { seed: u64, count: u64 },
}

/// What a run is told besides its image's name.
#[derive(Clone, Copy, PartialEq, Eq)]
pub struct RunOptions {
    /// Whether the report has each move.
    pub detail: Detail,
    /// The layout of the ring's entries.
    pub abi: Abi,
    /// The ring has `2^order` pages (0 to 4).
    pub order: u32,
    /// The ring's first index: its producers begin there.
    pub start: u32,
    /// The most segments that a request may have in indirect pages, 0 to 960; 0 offers no such requests.
    pub indirect: u32,
    /// Whether the disk is read-only: the image is never written.
    pub read_only: bool,
}

/// The command that the words after the program's name ask for, as `clap` reads them: `run` with an
/// image's name, and `--moves`, `--read-only`, `--abi` 64 or 32, `--order` from 0 to 4, `--start`, a
/// number of 32 bits, and `--indirect` from 0 to 960, before or after it; `inspect`, with `--abi`
/// and `--order`; `check`; or `bench`, with a seed, a number of 64 bits, and a count from 0 to 100000.
/// Each option comes at most once, and a number may have a plus and zeros before it. Without them the
/// layout is that of x86_64, the order 0, the ring's first index 0, no request has indirect pages, and
/// the disk may be written.
///
/// `None` where `clap` finds a fault in the words, of which a wish for help is one, and at an `--abi`
/// between 32 and 64. The error comes where there was no memory.
pub fn read_command<'a>(
    alloc: Global,
    words: &'a [String],
) -> Result<Option<Command<'a>>, OutOfMemory>
    ensures asked { IfOk result (λ command. option_map wish_by command ≡ wish_of (map string_bytes words.now)) }
{
    match command_set(alloc)?.try_get_matches_from(words) {
        Ok(matches) => Ok(asked(&matches)),
        Err(error) => match error.kind() {
            ErrorKind::OutOfMemory => Err(OutOfMemory),
            _ => Ok(None),
        },
    }
}

// What the program may be told.
fn command_set<'a>(alloc: Global) -> Result<clap::Command<'a>, AllocError>
    ensures { IfOk result (IsSet command_set) }
{
    read_commands(alloc)?.subcommand(bench_command(alloc)?)
}

// The commands that read an input, `run`, `inspect` and `check`.
fn read_commands<'a>(alloc: Global) -> Result<clap::Command<'a>, AllocError>
    ensures { IfOk result (IsSet read_set) }
{
    clap::Command::new(alloc, "blkring")
        .no_binary_name(true)
        .subcommand_required(true)
        .subcommand(run_command(alloc)?)?
        .subcommand(inspect_command(alloc)?)?
        .subcommand(check_command(alloc))
}

// `run IMAGE [--moves] [--abi N] [--order N] [--start N] [--indirect N] [--read-only]`.
fn run_command<'a>(alloc: Global) -> Result<clap::Command<'a>, AllocError>
    ensures { IfOk result (IsSet run_set) }
{
    run_command_up_to_order(alloc)?
        .arg(number_option(alloc, "start", 0, u32::MAX, "0"))?
        .arg(number_option(alloc, "indirect", 0, 960, "0"))?
        .arg(flag_argument(alloc, "read-only"))
}

// The first words of `run`, up to those on the shape of the ring.
fn run_command_up_to_order<'a>(alloc: Global) -> Result<clap::Command<'a>, AllocError>
    ensures { IfOk result (IsSet shape_set) }
{
    clap::Command::new(alloc, "run")
        .arg(image_argument(alloc))?
        .arg(flag_argument(alloc, "moves"))?
        .arg(abi_option(alloc))?
        .arg(order_option(alloc))
}

// `inspect [--abi N] [--order N]`.
fn inspect_command<'a>(alloc: Global) -> Result<clap::Command<'a>, AllocError>
    ensures { IfOk result (IsSet inspect_set) }
{
    clap::Command::new(alloc, "inspect")
        .arg(abi_option(alloc))?
        .arg(order_option(alloc))
}

// `check`.
fn check_command<'a>(alloc: Global) -> clap::Command<'a>
    ensures { IsSet check_set result }
{
    clap::Command::new(alloc, "check")
}

// `bench SEED COUNT`.
fn bench_command<'a>(alloc: Global) -> Result<clap::Command<'a>, AllocError>
    ensures { IfOk result (IsSet bench_set) }
{
    clap::Command::new(alloc, "bench")
        .arg(seed_argument(alloc))?
        .arg(count_argument(alloc))
}

fn image_argument<'a>(alloc: Global) -> Arg<'a>
    ensures { IsArgument image_rule result }
{
    Arg::new(alloc, "image").required(true)
}

fn seed_argument<'a>(alloc: Global) -> Arg<'a>
    ensures { IsArgument seed_rule result }
{
    Arg::new(alloc, "seed")
        .required(true)
        .value_parser(value_parser!(u64))
}

fn count_argument<'a>(alloc: Global) -> Arg<'a>
    ensures { IsArgument count_rule result }
{
    Arg::new(alloc, "count")
        .required(true)
        .value_parser(value_parser!(u64).range(0..=100_000))
}

// `--ID`.
fn flag_argument<'a>(alloc: Global, id: &'a str) -> Arg<'a>
    ensures { IsArgument (flag_rule id.now) result }
{
    Arg::new(alloc, id).long(id).action(ArgAction::SetTrue)
}

// `--ID N`, N from `least` to `most`, and `default` where there is none.
fn number_option<'a>(alloc: Global, id: &'a str, least: u32, most: u32, default: &'a str) -> Arg<'a>
    ensures { IsArgument (option_rule id.now least most default.now) result }
{
    Arg::new(alloc, id)
        .long(id)
        .value_parser(value_parser!(u64).range(i64::from(least)..=i64::from(most)))
        .default_value(default)
}

fn abi_option<'a>(alloc: Global) -> Arg<'a>
    ensures { IsArgument abi_rule result }
{
    number_option(alloc, "abi", 32, 64, "64")
}

fn order_option<'a>(alloc: Global) -> Arg<'a>
    ensures { IsArgument order_rule result }
{
    number_option(alloc, "order", 0, 4, "0")
}

// The command that the matches of a parse ask for.
fn asked<'a>(matches: &ArgMatches<'a>) -> Option<Command<'a>>
    ensures { option_map wish_by result ≡ option_and_then (λ s. wish_in s.0 s.1) (subcommand_rows_of matches.now) }
{
    let (name, found) = matches.subcommand()?;
    match name {
        "run" => run(found),
        "inspect" => inspect(found),
        "check" => Some(Command::Check),
        "bench" => bench(found),
        _ => None,
    }
}

fn run<'a>(found: &ArgMatches<'a>) -> Option<Command<'a>>
    ensures { option_map wish_by result ≡ run_in (rows_of (found_of found.now)) }
{
    let image = text(found, "image")?;
    run_with(
        image,
        flag(found, "moves"),
        flag(found, "read-only"),
        number(found, "abi"),
        number(found, "order"),
        number(found, "start"),
        number(found, "indirect"),
    )
}

// A run on the image of that name, with these options, where the numbers are ones that they may have.
fn run_with(
    image: &str,
    moves: bool,
    read_only: bool,
    bits: Option<u64>,
    pages: Option<u64>,
    first: Option<u64>,
    most: Option<u64>,
) -> Option<Command<'_>>
    ensures { option_map wish_by result
        ≡ run_with image.now moves read_only (option_and_then layout_of bits) (option_and_then order_of pages)
        (option_and_then start_of first) (option_and_then indirect_of most) }
{
    let abi = layout(bits?)?;
    let order = order(pages?)?;
    let start = start(first?)?;
    let indirect = indirect(most?)?;
    let detail = if moves { Detail::Moves } else { Detail::Lines };
    Some(Command::Run {
        image,
        options: RunOptions {
            detail,
            abi,
            order,
            start,
            indirect,
            read_only,
        },
    })
}

fn inspect<'a>(found: &ArgMatches<'a>) -> Option<Command<'a>>
    ensures { option_map wish_by result ≡ ring_in (rows_of (found_of found.now)) }
{
    let abi = layout(number(found, "abi")?)?;
    let order = order(number(found, "order")?)?;
    Some(Command::Inspect { abi, order })
}

fn bench<'a>(found: &ArgMatches<'a>) -> Option<Command<'a>>
    ensures { option_map wish_by result ≡ bench_in (rows_of (found_of found.now)) }
{
    let seed = number(found, "seed")?;
    let count = count(number(found, "count")?)?;
    Some(Command::Bench { seed, count })
}

// A flag that was used has the text `true`.
fn flag(found: &ArgMatches<'_>, id: &str) -> bool
    ensures { result ≡ flag_in id.now (rows_of (found_of found.now)) }
{
    matches!(text(found, id), Some("true"))
}

// The layout whose words have that many bits.
fn layout(number: u64) -> Option<Abi>
    ensures { result ≡ layout_of number }
{
    match number {
        64 => Some(Abi::X64),
        32 => Some(Abi::X32),
        _ => None,
    }
}

// An index of the ring.
fn start(number: u64) -> Option<u32>
    ensures { result ≡ start_of number }
{
    if number <= 4_294_967_295 {
        Some(number as u32)
    } else {
        None
    }
}

// A number of segments of a request in indirect pages.
fn indirect(number: u64) -> Option<u32>
    ensures { result ≡ indirect_of number }
{
    if number <= 960 {
        Some(number as u32)
    } else {
        None
    }
}

// A number of lines of a generated load.
fn count(number: u64) -> Option<u64>
    ensures { result ≡ count_of number }
{
    if number <= 100_000 {
        Some(number)
    } else {
        None
    }
}

fn order(number: u64) -> Option<u32>
    ensures { result ≡ order_of number }
{
    if number <= 4 {
        Some(number as u32)
    } else {
        None
    }
}

// The text of an argument.
fn text<'a>(found: &ArgMatches<'a>, id: &str) -> Option<&'a str>
    ensures { option_map (λ s. s.now) result ≡ first_of id.now (rows_of (found_of found.now)) }
{
    found.get_str(id)
}

// The number that an option has.
fn number(found: &ArgMatches<'_>, id: &str) -> Option<u64>
    ensures { result ≡ number_in id.now (rows_of (found_of found.now)) }
{
    found.get_one::<u64>(id)
}
