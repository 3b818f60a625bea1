// What each operation is: its refusal and its steps, as definitions in specs/. Nothing here runs.
#![tactic(auto)]
