//! The limits of an id and of an update.

ghost use Rattle.std.specs.Prelude.{◌≡◌};
ghost use Rattle.sc_record.specs.Ids.{id_limit};
ghost use Rattle.sc_record.specs.Orders.{order_limit};
ghost use Rattle.sc_record.specs.declared.id.TheConstants.{MAX_ID_LENGTH};
ghost use Rattle.sc_record.specs.declared.order.TheConstants.{MAX_ORDERS};

/// The limits that a user meets are the numbers of the definitions.
pub fn limits_are_as_defined()
    ensures id { MAX_ID_LENGTH ≡ id_limit }
    ensures orders { MAX_ORDERS ≡ order_limit }
{}
