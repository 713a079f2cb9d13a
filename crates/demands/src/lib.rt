// The demands of document 01 on files and sheets as wholes: laws alone.
#![tactic(auto)]
