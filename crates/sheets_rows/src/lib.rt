// A sheet's lines taken as its entries: laws alone.
#![tactic(auto)]
