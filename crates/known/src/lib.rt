// The known takes and pitches: a table of rows and a proof that each is right. There is nothing to run.
#![tactic(auto)]
