// The canonical file of a model is read back as that model: laws alone.
#![tactic(auto)]
