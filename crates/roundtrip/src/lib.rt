// What is typed of a set and its wiring list is read with yes, and gives the same set: the writer of listings against their reader.
#![tactic(auto)]
