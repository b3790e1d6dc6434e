// Each question to the host, once: with its zeros unsigned, its answer checked against the limits.
ghost use Rattle.std.specs.Prelude.{◌≡◌};
ghost use Rattle.number.specs.Limits.{in_limits};
ghost use Rattle.tree.specs.Meaning.{raise};
ghost use Rattle.item_questions.specs.Asking.{unsigned_option, unsigned_space, unsigned as unsigned_question, taken, Asked};
ghost use Rattle.item_questions.specs.Asking.{measured, laid_out, fetched, styled};

use crate::fault::ItemFault;
use geometry::Size;
use number::{in_limits, without_zero_sign};
use style::length::AvailableSpace;
use style::range::first_out_of_range;
use style::style::Style;
use tree::fault::HostFault;
use tree::layout::{LayoutOutput, OofCandidate};
use tree::numbers::Numbers;
use tree::question::Question;
use tree::traits::{LayoutGridContainer, LayoutPartialTree};

fn unsigned_option(x: Option<f32>) -> Option<f32>
    ensures { result ≡ unsigned_option x }
{
    x.map(without_zero_sign)
}

fn unsigned_space(space: AvailableSpace) -> AvailableSpace
    ensures { result ≡ unsigned_space space }
{
    match space {
        AvailableSpace::Definite(x) => AvailableSpace::Definite(without_zero_sign(x)),
        other => other,
    }
}

fn unsigned(question: Question) -> Question
    ensures { result ≡ unsigned_question question }
{
    Question {
        known_dimensions: question.known_dimensions.map(unsigned_option),
        parent_size: question.parent_size.map(unsigned_option),
        available_space: question.available_space.map(unsigned_space),
        ..question
    }
}

// The answer, if each of its numbers is in limits.
fn taken<A: Numbers>(answer: Result<A, HostFault>, fault: ItemFault) -> Result<A, ItemFault>
    ensures { result ≡ taken (A.every in_limits) fault answer }
{
    let answer = answer?;
    if answer.every_number(&in_limits) {
        Ok(answer)
    } else {
        Err(fault)
    }
}

// How large the node would be.
pub fn measure<H: LayoutPartialTree>(
    host: &mut H,
    question: Question,
) -> Result<Size<f32>, ItemFault>
    requires { H.ordered host.old }
    ensures answer { result ≡ measured (H.meaning host.old).means question }
    ensures asked { Asked H.LayoutPartialTree host.old host.new (raise 1 0) }
{
    taken(host.measure(unsigned(question)), ItemFault::SizeOutOfLimits)
}

// How the node is laid out.
pub fn perform_layout<H: LayoutPartialTree>(
    host: &mut H,
    question: Question,
) -> Result<LayoutOutput, ItemFault>
    requires { H.ordered host.old }
    ensures answer { result ≡ laid_out (H.meaning host.old).means question }
    ensures asked { Asked H.LayoutPartialTree host.old host.new (raise 0 1) }
{
    taken(
        host.perform_layout(unsigned(question)),
        ItemFault::LayoutOutOfLimits,
    )
}

// One of the candidates of the layout that a question asked for.
pub fn fetch_candidate<H: LayoutPartialTree>(
    host: &mut H,
    question: Question,
    index: u32,
) -> Result<OofCandidate, ItemFault>
    requires { H.ordered host.old }
    ensures answer { result ≡ fetched (H.meaning host.old).means question index }
    ensures asked { Asked H.LayoutPartialTree host.old host.new (λ counts. counts) }
{
    taken(
        host.fetch_candidate(unsigned(question), index),
        ItemFault::CandidateOutOfLimits(index),
    )
}

// The style of the node, each of its numbers in range.
pub fn style_of<H: LayoutGridContainer>(host: &H, node: u64) -> Result<Style, ItemFault>
    requires { H.LayoutPartialTree.ordered host.now }
    ensures { result ≡ styled (H.LayoutPartialTree.meaning host.now).means node }
{
    let style = host.style(node)?;
    match first_out_of_range(&style) {
        Some(field) => Err(ItemFault::StyleOutOfRange(field)),
        None => Ok(style),
    }
}
