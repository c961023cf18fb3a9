// Laws about lists, orders and tests that belong to no one crate. There is no code; the laws stand in specs/.
#![tactic(auto)]
