// The laws of lists of call records.

ghost use Rattle.ev_calls.specs.Lists.{AddressesDiffer, EmptyAtZero, FirstElsewhere, ListsStay};
ghost use Rattle.ev_calls.specs.Lists.{ListsAreTurned, ListsTurn, QueuesAreTaken, QueuesGrow};

/// Lists of call records, as memory links them: a list stays where its links do; it is empty exactly
/// where it begins at 0. The exchange of `call` puts its record behind all calls of the queue, that
/// of `take` leaves the queue empty and its calls to be turned round, and each turn keeps them and
/// their order, until they are linked in the order in which they run. Own.
pub fn list_laws()
    ensures addresses { AddressesDiffer }
    ensures stay { ListsStay }
    ensures empty { EmptyAtZero }
    ensures first { FirstElsewhere }
    ensures grow { QueuesGrow }
    ensures taken { QueuesAreTaken }
    ensures turn { ListsTurn }
    ensures turned { ListsAreTurned }
{}
