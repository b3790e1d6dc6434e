// What follows for a page that was read, on the contract of a function, so that the check asks for its proof.
ghost use Rattle.page_text.specs.PageLaws.{AxesInRange};

// Both axes of a page that was read are in range: aligned, they are well placed.
pub fn axes_in_range()
    ensures { AxesInRange }
{}
