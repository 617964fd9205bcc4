//! The laws of networks and orders, each on a function of its own.
ghost use Rattle.plcx_model.specs.Networks.{HaveOneListOfNetworks};
ghost use Rattle.plcx_model.specs.Orders.{HaveOneOrder};

/// Each network has exactly one order.
pub fn one_order()
    ensures { HaveOneOrder }
{}

/// Each body has exactly one list of networks.
pub fn one_list_of_networks()
    ensures { HaveOneListOfNetworks }
{}
