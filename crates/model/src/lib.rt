// Document 01 as one piece of mathematics: the model that a file and a sheet carry alike, its sheet under a list, its canonical file, and
// the answers of reading and writing with their refusals in order. There is no code here.
#![tactic(auto)]
