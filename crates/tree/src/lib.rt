// The tree of a template. It has no code: its definitions are in specs/, for the reader of templates and for their meaning.

#![tactic(auto)]
