// Resolving one length, the four of a Rect and the two of a Size.
ghost use Rattle.std.specs.Prelude.{◌≡◌, Result as Answer, Float};
ghost use Rattle.item_lengths.specs.declared.CalcOutOfLimits.{CalcOutOfLimits as OutOfLimits};
ghost use Rattle.item_lengths.specs.Resolved.{Calculation, calculated, length_percentage, length_percentage_auto, dimension, fit_content_argument, resolved_rect, resolved_size};

use crate::CalcOutOfLimits;
use geometry::{Rect, Size};
use number::{in_limits, without_zero_sign};
use style::length::{Dimension, LengthPercentage, LengthPercentageAuto};
use tree::traits::LayoutPartialTree;

// The basis goes to the host without a zero's sign.
fn calculate<H: LayoutPartialTree>(
    handle: u32,
    basis: f32,
    host: &H,
) -> Result<f32, CalcOutOfLimits>
    requires { H.ordered host.now }
    ensures { result ≡ calculated (H.meaning host.now).means.calculates handle basis }
{
    let number = host.calc(handle, without_zero_sign(basis));
    if in_limits(number) {
        Ok(number)
    } else {
        Err(CalcOutOfLimits { handle })
    }
}

// A length that a basis turns into a number, or into a number that may be absent. The basis stands beside the host, and not in
// a struct with it: each side of a rectangle has its own basis.
pub trait Resolve: Sized {
    type Output;

    ghost resolved: { Calculation → Self → Float → Answer Self.Output OutOfLimits };

    fn resolve<H: LayoutPartialTree>(
        self,
        basis: f32,
        host: &H,
    ) -> Result<Self::Output, CalcOutOfLimits>
        requires { H.LayoutPartialTree.ordered host.now }
        ensures { result ≡ resolved (H.LayoutPartialTree.meaning host.now).means.calculates self basis };
}

impl Resolve for LengthPercentage {
    type Output = f32;

    ghost resolved = { length_percentage };

    fn resolve<H: LayoutPartialTree>(self, basis: f32, host: &H) -> Result<f32, CalcOutOfLimits> {
        match self {
            LengthPercentage::Px(x) => Ok(x),
            LengthPercentage::Percent(fraction) => Ok(basis * fraction),
            LengthPercentage::Calc(handle) => calculate(handle, basis, host),
        }
    }
}

impl Resolve for LengthPercentageAuto {
    type Output = Option<f32>;

    ghost resolved = { length_percentage_auto };

    fn resolve<H: LayoutPartialTree>(
        self,
        basis: f32,
        host: &H,
    ) -> Result<Option<f32>, CalcOutOfLimits> {
        match self {
            LengthPercentageAuto::Auto => Ok(None),
            LengthPercentageAuto::Length(length) => length.resolve(basis, host).map(Some),
        }
    }
}

impl Resolve for Dimension {
    type Output = Option<f32>;

    ghost resolved = { dimension };

    fn resolve<H: LayoutPartialTree>(
        self,
        basis: f32,
        host: &H,
    ) -> Result<Option<f32>, CalcOutOfLimits> {
        match self {
            Dimension::Length(length) => length.resolve(basis, host).map(Some),
            _ => Ok(None),
        }
    }
}

// The argument of a `fit-content(..)`, if the dimension is one.
pub fn resolve_fit_content_argument<H: LayoutPartialTree>(
    dimension: Dimension,
    basis: f32,
    host: &H,
) -> Result<Option<f32>, CalcOutOfLimits>
    requires { H.ordered host.now }
    ensures { result ≡ fit_content_argument (H.meaning host.now).means.calculates dimension basis }
{
    match dimension {
        Dimension::FitContentFunction(length) => length.resolve(basis, host).map(Some),
        _ => Ok(None),
    }
}

// The four sides: left and right against the basis's width, top and bottom against its height.
pub fn resolve_rect<L: Resolve + Drop, H: LayoutPartialTree>(
    rect: Rect<L>,
    basis: Size<f32>,
    host: &H,
) -> Result<Rect<L::Output>, CalcOutOfLimits>
where
    L::Output: Drop,
    requires { H.LayoutPartialTree.ordered host.now }
    ensures { result ≡ resolved_rect (L.Resolve.resolved (H.LayoutPartialTree.meaning host.now).means.calculates) rect basis }
{
    Ok(Rect {
        left: rect.left.resolve(basis.width, host)?,
        right: rect.right.resolve(basis.width, host)?,
        top: rect.top.resolve(basis.height, host)?,
        bottom: rect.bottom.resolve(basis.height, host)?,
    })
}

// Width and height, each against its own side of the basis.
pub fn resolve_size<L: Resolve + Drop, H: LayoutPartialTree>(
    size: Size<L>,
    basis: Size<f32>,
    host: &H,
) -> Result<Size<L::Output>, CalcOutOfLimits>
where
    L::Output: Drop,
    requires { H.LayoutPartialTree.ordered host.now }
    ensures { result ≡ resolved_size (L.Resolve.resolved (H.LayoutPartialTree.meaning host.now).means.calculates) size basis }
{
    Ok(Size {
        width: size.width.resolve(basis.width, host)?,
        height: size.height.resolve(basis.height, host)?,
    })
}
