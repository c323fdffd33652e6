// The grammar of the desktop tool's listing: trees, the texts that they are written as, and that the machine reads these and no others.
#![tactic(auto)]
