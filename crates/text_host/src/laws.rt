// What the definitions give, as laws on the contracts of functions, so that the check asks for their proofs.
ghost use Rattle.style.specs.declared.style.Style.{Style as AnyStyle};
ghost use Rattle.std.specs.Prelude.{List};
ghost use Rattle.tables.specs.declared.nodes.Slot.{Slot};
ghost use Rattle.text_host.specs.Computed.{InOrder};
ghost use Rattle.text_host.specs.Worked.{Worked};
ghost use Rattle.text_host.specs.declared.text.TextRecord.{TextRecord};

// The sizes of the worked text are those that were found by hand.
pub fn worked_text_holds()
    ensures { (s : AnyStyle) → Worked s }
{}

// Every text host is in order.
pub fn each_text_host_is_in_order()
    ensures { (texts : List (Slot TextRecord)) → InOrder texts }
{}
