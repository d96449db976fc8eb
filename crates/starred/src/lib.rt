// The paper's starred cases, shown of the definitions: there is no code here, only specs/Starred.antt.
#![tactic(auto)]
