// What is promised, as theorems over the definitions that the entries' contracts cite. There is no code here: read specs/.
#![tactic(auto)]
