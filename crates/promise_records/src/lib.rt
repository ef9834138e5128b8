// promise_records: the records of a build. What it answered with 0 is never refused at take-over and keeps its records; what it shows in lent
// records, whatever it answers, is not cut to their bytes. Theorems alone.
#![tactic(auto)]
