// What the tables mean, as laws on the contracts of functions, so that the check asks for their proofs.
ghost use Rattle.recorded_host.specs.FirstCounts.{FirstCounts};
ghost use Rattle.recorded_host.specs.Recorded.{InOrder};
ghost use Rattle.recorded_host.specs.Tables.{Tables};

// A record that is added answers only where there was no answer.
pub fn first_record_counts()
    ensures { (t : Tables) → FirstCounts t }
{}

// Every recorded host is in order.
pub fn each_recorded_host_is_in_order()
    ensures { (t : Tables) → InOrder t }
{}
