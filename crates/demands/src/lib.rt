// What linking owes, proved over its definitions. There is no code here, so that the linker's own check stays small: an edit here proves nothing below anew.
#![tactic(auto)]
