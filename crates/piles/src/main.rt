// Piles of layers over both hosts: what they answer and count, and on standard error how long a measurement takes.
#![tactic(auto)]

ghost use Rattle.std.specs.Prelude.{IfOk};
ghost use Rattle.recorded_host.specs.Recorded.{InOrder as RecordedInOrder};
ghost use Rattle.text_host.specs.Computed.{InOrder as TextInOrder};

use anyhow::anyhow;
use geometry::Size;
use layers::cache::Cache;
use layers::pile::tally_over_cache;
use layers::tally::Tally;
use recorded_host::host::RecordedHost;
use recorded_host::records::{MeasurementRecord, NodeRecord};
use std::alloc::AllocFailed;
use std::fmt;
use std::time::Instant;
use style::length::AvailableSpace;
use style::modes::{RequestedAxis, SizingMode};
use style::style::Style;
use text_host::host::TextHost;
use text_host::text::TextRecord;
use tree::fault::HostFault;
use tree::question::Question;
use tree::traits::LayoutPartialTree;

const ROUNDS: u32 = 100000;

fn about(node: u64, width: f32) -> Question {
    Question {
        node,
        known_dimensions: Size::NONE,
        parent_size: Size::NONE,
        available_space: Size {
            width: AvailableSpace::Definite(width),
            height: AvailableSpace::MaxContent,
        },
        sizing_mode: SizingMode::ContentSize,
        axis: RequestedAxis::Both,
    }
}

fn no_memory<T: Drop>(_failed: AllocFailed<T>) -> anyhow::Error {
    anyhow!("no memory")
}

// Ten letters, the longest word of four, in cells of 8 by 16.
fn text_host(rt: &HostRuntime) -> anyhow::Result<TextHost>
    ensures { IfOk result TextInOrder }
{
    let mut host = TextHost::new(rt.alloc());
    host.add_text(TextRecord {
        node: 7,
        style: Style::DEFAULT,
        letters: 10,
        longest_word: 4,
        cell_width: 8,
        line_height: 16,
    })
    .map_err(no_memory)?;
    Ok(host)
}

// A node with an answer for each whole width below the span.
fn recorded_host(rt: &HostRuntime, span: u16) -> anyhow::Result<RecordedHost>
    ensures { IfOk result RecordedInOrder }
{
    let mut host = RecordedHost::new(rt.alloc());
    host.add_node(NodeRecord {
        node: 7,
        style: None,
    })
    .map_err(no_memory)?;
    for width in 0..span {
        let width = f32::from(width);
        host.add_measurement(MeasurementRecord {
            question: about(7, width),
            size: Size {
                width,
                height: 16.0,
            },
        })
        .map_err(no_memory)?;
    }
    Ok(host)
}

// An answer, as it is printed.
#[derive(Drop)]
struct Answer(Result<Size<f32>, HostFault>);

impl fmt::Display for Answer {
    fn fmt<W: fmt::Write>(&self, f: &mut fmt::Formatter<W>) -> fmt::Result {
        match self.0 {
            Ok(Size { width, height }) => write!(f, "{width} by {height}"),
            Err(fault) => write!(f, "{fault}"),
        }
    }
}

// Asks twice what is answered, once about a node that is not there, and once what has no answer.
fn ask<H: LayoutPartialTree>(rt: &HostRuntime, host: &mut H) -> anyhow::Result<()>
    requires { H.ordered host.old }
{
    rt.println(Answer(host.measure(about(7, 50.0))))?;
    rt.println(Answer(host.measure(about(7, 50.0))))?;
    rt.println(Answer(host.measure(about(8, 50.0))))?;
    rt.println(Answer(host.measure(about(7, f32::NAN))))?;
    Ok(())
}

// So many measurements, of one width below the span after the other; how many had no answer.
fn measure_round<H: LayoutPartialTree>(host: &mut H, span: u16, rounds: usize) -> u32
    requires { H.ordered host.old }
    ensures { H.ordered host.new }
{
    // A loop, not `filter(..).count()`: after a closure that changes the host a proof knows nothing of the host.
    let mut unanswered = 0u32;
    for width in (0..span).cycle().take(rounds) {
        if host.measure(about(7, f32::from(width))).is_err() {
            unanswered = unanswered.saturating_add(1);
        }
    }
    unanswered
}

fn time<H: LayoutPartialTree>(
    rt: &HostRuntime,
    name: &str,
    host: &mut H,
    span: u16,
) -> anyhow::Result<()>
    requires { H.ordered host.old }
    ensures { H.ordered host.new }
{
    let start = Instant::now(rt)?;
    let unanswered = measure_round(host, span, ROUNDS as usize);
    let nanoseconds = start.elapsed(rt)?.as_nanos() / u128::from(ROUNDS);
    eprintln!(rt; "{name}: {nanoseconds} ns a measurement, {unanswered} unanswered")?;
    Ok(())
}

// The bare host, and the pile where no question is remembered and where each is: 65 questions in turn never hit a cache of 64.
fn time_piles(rt: &HostRuntime) -> anyhow::Result<()> {
    let mut bare = recorded_host(rt, 65)?;
    time(rt, "bare host, 65 questions in turn", &mut bare, 65)?;
    let mut pile = tally_over_cache(rt.alloc(), bare).map_err(no_memory)?;
    time(
        rt,
        "tally over cache, 65 questions in turn, all missed",
        &mut pile,
        65,
    )?;
    time(
        rt,
        "tally over cache, 64 questions in turn, hit but for the first round",
        &mut pile,
        64,
    )?;
    let mut one = recorded_host(rt, 1)?;
    time(rt, "bare host of one answer", &mut one, 1)?;
    let mut pile = tally_over_cache(rt.alloc(), one).map_err(no_memory)?;
    time(
        rt,
        "tally over cache, one question, hit but for the first",
        &mut pile,
        1,
    )
}

fn tally_over_cache_over_texts(rt: &HostRuntime) -> anyhow::Result<()> {
    println!(rt; "a tally over a cache over texts")?;
    let mut pile = tally_over_cache(rt.alloc(), text_host(rt)?).map_err(no_memory)?;
    ask(rt, &mut pile)?;
    println!(rt; "{} measurements passed", pile.measurements())?;
    Ok(())
}

fn cache_over_tally_over_records(rt: &HostRuntime) -> anyhow::Result<()> {
    println!(rt; "a cache over a tally over records")?;
    let tally = Tally::new(recorded_host(rt, 51)?);
    let mut pile = Cache::new(rt.alloc(), tally).map_err(no_memory)?;
    ask(rt, &mut pile)?;
    println!(rt; "{} measurements passed", pile.below().measurements())?;
    Ok(())
}

fn tally_over_tally_over_texts(rt: &HostRuntime) -> anyhow::Result<()> {
    println!(rt; "a tally over a tally over texts")?;
    let mut pile = Tally::new(Tally::new(text_host(rt)?));
    ask(rt, &mut pile)?;
    println!(rt;
        "{} and {} measurements passed",
        pile.measurements(),
        pile.below().measurements()
    )?;
    Ok(())
}

fn main(rt: HostRuntime) -> anyhow::Result<()> {
    tally_over_cache_over_texts(&rt)?;
    cache_over_tally_over_records(&rt)?;
    tally_over_tally_over_texts(&rt)?;
    time_piles(&rt)
}
