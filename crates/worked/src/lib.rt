// The worked pages: examples whose numbers were found by hand, proved to come out of the definitions.
#![tactic(auto)]

#[cfg(test)]
mod tests;

ghost use Rattle.worked.specs.TrackPages.{PagesHold};

// Every worked row of tracks has the offsets that it is said to have.
pub fn pages_hold()
    ensures { PagesHold }
{}
