//! What holds of every address, and of every number that has a name.

ghost use Rattle.dns_values.specs.Address.{AddressLaws};
ghost use Rattle.dns_values.specs.NumberNames.{NumberNameLaws};

/// The laws of the texts of addresses: a text writes one address at most, and what an address
/// prints is read as that address.
pub fn address_laws()
    ensures { AddressLaws }
{}

/// The laws of the texts of types, classes and codes: what one prints is read as the same number, and
/// a type or class may be written by its number too.
pub fn number_name_laws()
    ensures { NumberNameLaws }
{}
