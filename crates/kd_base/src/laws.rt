//! Laws on the definitions, which all crates above may cite. The functions do nothing.
ghost use Rattle.kd_base.specs.{RoundTrips.{U8ComesBack, U32ComesBack, U64ComesBack, ListComesBack, NameComesBack, NameStandsThere}, Order.{EqualIsSame, TiedIsSame, OrderIsTotal}};

/// What was written is read again, whatever follows; and a name is read only where it is.
pub fn fields_come_back()
    ensures u8 { U8ComesBack }
    ensures u32 { U32ComesBack }
    ensures u64 { U64ComesBack }
    ensures list { ListComesBack }
    ensures name { NameComesBack }
    ensures no_other_name { NameStandsThere }
{}

/// Names, program names and bytes are told apart by `==` and by their order.
pub fn names_are_told_apart()
    ensures equal { EqualIsSame }
    ensures tied { TiedIsSame }
    ensures total { OrderIsTotal }
{}
