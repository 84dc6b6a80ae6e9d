//! Laws of the identifiers that members give to their orders and requests.
ghost use Rattle.market_laws.specs.Ids.{IdsAreShort};
ghost use Rattle.market_laws.specs.Names.{OrdersAreNamed, UsedNamesAreTold};

/// Where each command of a history gives identifiers of at most 64 bytes, each identifier that the book holds or that a
/// report tells has at most 64 bytes.
// Rules out an identifier that is made from others, and one that was not given by a command.
pub fn ids_are_short()
    ensures { IdsAreShort }
{}

/// No member uses up an identifier twice. Each order's present identifier is one that its member used up, and it names that
/// order and no other.
// Rules out a New or a Replace whose identifier was given before, two orders of a member with one identifier, and a Replace
// that leaves its order with an identifier that can be given again.
pub fn orders_are_named()
    ensures { OrdersAreNamed }
{}

/// The identifiers that are used up are those that the reports tell, in their order: of each New, Cancel and Replace that
/// was accepted, and of no other.
// Rules out a refused request that uses up its identifier, an accepted one that doesn't, and one that is told to another
// member than the one who may not give it again.
pub fn used_names_are_told()
    ensures { UsedNamesAreTold }
{}
